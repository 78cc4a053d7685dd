//! A whole program: the bodies of its classes behind those of the library, its constant texts, and its main (JLS 7, 12.1).
//! What its classes declare is no part of this: that is its table.

ghost use Rattle.std.specs.Prelude.{◌≡◌, ◌<◌, ◌≤◌, ◌+◌, ◌^◌, [], ◌∷◌, IfOk, OnOk, length, map};
ghost use Rattle.wy_constant.specs.Refusal.{Gives};
ghost use Rattle.wy_constant.specs.Scope.{FixedText as PlainText};
ghost use Rattle.wy_constant.specs.declared.variable.FixedText.{FixedText as MemoryText};
ghost use Rattle.wy_elab_expr.specs.Views.{GetsTo, Judged};
ghost use Rattle.wy_elab_body.specs.Places.{places_of};
ghost use Rattle.wy_elab_stmt.specs.Program.{bodies_of, library_text, main_of, no_bodies, program, setting};
ghost use Rattle.wy_elab_body.specs.Statements.{Setting as PlainSetting};
ghost use Rattle.wy_elab_stmt.specs.ClassViews.{class_bodies_seen};
ghost use Rattle.wy_elab_body.specs.Views.{IsSetting};
ghost use Rattle.wy_elab_stmt.specs.Whole.{all_texts, and_class, behind_bodies, bodies_view, class_behind, declared_behind, made, made_view, main_or_refused, of_library, program_from};
ghost use Rattle.wy_table.specs.ClassTable.{table_of};
ghost use Rattle.wy_kernel.specs.Parts.{program_of};
ghost use Rattle.wy_syntax.specs.View.{class_of, declaration_of};
ghost use Rattle.wy_kernel.specs.Program.{library_statements};
ghost use Rattle.wy_tree.specs.Tokens.{token_limit};

use crate::class_body::{ClassBodies, class_bodies};
use crate::main_method::main_of;
use crate::order::in_order;
use std::alloc::{AllocError, Global};
use wy_constant::{FixedText, Rule, TypeError};
use wy_elab_body::class_places::places_of;
use wy_elab_body::numbers::{LIBRARY_STATEMENTS, numbers_of};
use wy_elab_body::place::Place;
use wy_elab_body::setting::Setting;
use wy_elab_expr::Texts;
use wy_kernel::builtin::FIRST_SOURCE_CLASS;
use wy_kernel::form::Body;
use wy_kernel::program::Program;
use wy_library::{library_bodies, library_init_bodies};
use wy_syntax::declaration::{ClassSyntax, Declaration};
use wy_table::table::ClassTable;
use wy_tree::token::TOKEN_LIMIT;

/// The bodies of methods by their numbers, and the initializers of classes by theirs.
#[derive(Drop)]
pub struct Bodies {
    pub methods: Vec<Option<Body>>,
    pub initializers: Vec<Option<Body>>,
}

/// All bodies of a program, and the texts that their forms hold.
#[derive(Drop)]
pub struct Made {
    pub bodies: Bodies,
    pub texts: Texts,
}

fn none_yet(alloc: Global) -> Bodies
    ensures { bodies_view result ≡ no_bodies }
{
    Bodies {
        methods: Vec::new(alloc),
        initializers: Vec::new(alloc),
    }
}

fn of_library(alloc: Global) -> Result<Bodies, AllocError>
    ensures { IfOk result (λ all. bodies_view all ≡ of_library) }
{
    Ok(Bodies {
        methods: library_bodies(alloc)?,
        initializers: library_init_bodies(alloc)?,
    })
}

fn put_made(all: &mut Bodies, class: ClassBodies) -> Result<(), AllocError>
    ensures { OnOk result
        (bodies_view all.new ≡ and_class (bodies_view all.old) (class_bodies_seen class)) }
{
    let ClassBodies {
        mut bodies,
        initializer,
    } = class;
    all.initializers.push(initializer)?;
    all.methods.append(&mut bodies)?;
    Ok(())
}

fn next_number(number: u32) -> Result<u32, AllocError>
    ensures { IfOk result (λ n. n ≡ number + 1) }
{
    if number == 4294967295 {
        return Err(AllocError);
    }
    Ok(number + 1)
}

// Puts the bodies of a class behind others, and gives the number of the next class.
fn put_class(
    setting: &Setting,
    texts: &mut Texts,
    all: &mut Bodies,
    number: u32,
    class: &ClassSyntax,
) -> Result<u32, TypeError>
    ensures { (w : PlainSetting)
        → IsSetting setting.now w → GetsTo (λ n. (bodies_view all.new, n)) result texts.new
        (class_behind w (bodies_view all.old) number (class_of class.now) texts.old) }
{
    let made = class_bodies(setting, texts, number, class)?;
    put_made(all, made)?;
    Ok(next_number(number)?)
}

fn put_declaration(
    setting: &Setting,
    texts: &mut Texts,
    all: &mut Bodies,
    number: u32,
    declaration: &Declaration,
) -> Result<u32, TypeError>
    ensures { (w : PlainSetting) → IsSetting setting.now w
        → GetsTo (λ n. (bodies_view all.new, n)) result texts.new (declared_behind w
        (bodies_view all.old) number (declaration_of declaration.now) texts.old) }
{
    match declaration {
        Declaration::Class(class) => put_class(setting, texts, all, number, class),
        Declaration::Nothing => Ok(number),
        Declaration::Wrong => Ok(number),
    }
}

// Puts the bodies of all classes behind others.
fn put_bodies(
    setting: &Setting,
    texts: &mut Texts,
    all: &mut Bodies,
    unit: &[Declaration],
) -> Result<(), TypeError>
    ensures { (w : PlainSetting) → IsSetting setting.now w
        → GetsTo (λ u. bodies_view all.new) result texts.new (behind_bodies (bodies_view all.old)
        (bodies_of w (map declaration_of unit.now) texts.old)) }
{
    let mut number = FIRST_SOURCE_CLASS;
    for declaration in unit {
        let next = put_declaration(setting, texts, all, number, declaration)?;
        number = next;
    }
    Ok(())
}

fn library_texts(alloc: Global) -> Result<Texts, AllocError>
    ensures { IfOk result (λ texts. texts ≡ library_text ∷ []) }
{
    let text = FixedText {
        units: vec![in alloc; 58, 32]?,
        token: 0,
    };
    Ok(Texts::of(alloc, vec![in alloc; text]?)?)
}

// The texts that the forms of all bodies hold, in the order of their first tokens.
fn all_texts(setting: &Setting, unit: &[Declaration]) -> Result<Texts, TypeError>
    ensures { (w : PlainSetting) → IsSetting setting.now w
        → Gives (λ texts. texts) result (all_texts w (map declaration_of unit.now)) }
{
    let mut texts = library_texts(setting.alloc)?;
    let mut all = none_yet(setting.alloc);
    put_bodies(setting, &mut texts, &mut all, unit)?;
    Ok(in_order(setting.alloc, texts)?)
}

// All bodies: made again from all texts in order, each form has the number of its text.
fn all_made(setting: &Setting, unit: &[Declaration]) -> Result<Made, TypeError>
    ensures { (w : PlainSetting) → IsSetting setting.now w
        → Gives made_view result (made w (map declaration_of unit.now)) }
{
    let mut texts = all_texts(setting, unit)?;
    let mut bodies = of_library(setting.alloc)?;
    put_bodies(setting, &mut texts, &mut bodies, unit)?;
    Ok(Made { bodies, texts })
}

fn units_in(text: FixedText) -> Vec<u16>
    ensures { result ≡ text.units }
{
    let FixedText { units, token: _ } = text;
    units
}

fn units_among(alloc: Global, list: Vec<FixedText>) -> Result<Vec<Vec<u16>>, AllocError>
    ensures { IfOk result (λ all. all.items ≡ map (λ (t : MemoryText). t.units) list.items) }
{
    list.into_iter().map(|text| units_in(text)).collect(alloc)
}

fn units_of(alloc: Global, texts: Texts) -> Result<Vec<Vec<u16>>, AllocError>
    ensures units { IfOk result (λ all.
        map (λ v. v.items) all.items ≡ map (λ (t : PlainText). t.units) texts) }
    ensures few { IfOk result (λ all. length all.items < 2 ^ 32) }
{
    let all = units_among(alloc, texts.into_list())?;
    Ok(all)
}

// The number of statements, those of the library among them.
fn statements_at(places: &[Place]) -> Result<u32, AllocError>
    ensures { IfOk result (λ n. n ≡ library_statements + length places.now) }
{
    if places.len() >= 2147483648 {
        return Err(AllocError);
    }
    Ok(LIBRARY_STATEMENTS + places.len() as u32)
}

// The bodies of a program whose statements stand at these places.
fn made_at(
    alloc: Global,
    table: &ClassTable,
    unit: &[Declaration],
    places: Vec<Place>,
) -> Result<Made, TypeError>
    requires { places.items ≡ places_of (table_of table.now) (map declaration_of unit.now) }
    ensures { Judged (table_of table.now) (λ j. Gives made_view result (made (setting j
        (table_of table.now) (map declaration_of unit.now)) (map declaration_of unit.now))) }
{
    let numbers = numbers_of(places)?;
    let setting = Setting {
        alloc,
        table,
        numbers,
    };
    all_made(&setting, unit)
}

// The number of main, or the refusal behind the last token where there is none.
fn main_found(table: &ClassTable, unit: &[Declaration], tokens: u32) -> Result<u32, TypeError>
    requires { length unit.now ≤ token_limit }
    ensures { Gives (λ m. m) result
        (main_or_refused (main_of (table_of table.now) (map declaration_of unit.now)) tokens) }
{
    match main_of(table, unit) {
        Some(main) => Ok(main),
        None => Err(TypeError::Broken {
            rule: Rule::NoMain,
            token: tokens,
        }),
    }
}

#[tactic(auto, unfolding(wy_table::specs::ClassTable::table_of))]
fn program_from(
    alloc: Global,
    table: ClassTable,
    made: Made,
    lines: Vec<u32>,
    statements: u32,
    main: u32,
) -> Result<Program, AllocError>
    ensures program { IfOk result (λ p.
        program_of p ≡ program_from (table_of table) statements main (made_view made)) }
    ensures lines { IfOk result (λ p. p.lines.items ≡ lines.items) }
    ensures texts { IfOk result (λ p. length p.fixed_texts.items < 2 ^ 32) }
{
    let Made { bodies, texts } = made;
    let Bodies {
        methods: method_bodies,
        initializers,
    } = bodies;
    let ClassTable {
        classes,
        methods,
        fields,
        constants: _,
        hierarchy: _,
        names: _,
        index: _,
    } = table;
    Ok(Program {
        classes,
        methods,
        fields,
        bodies: method_bodies,
        init_bodies: initializers,
        fixed_texts: units_of(alloc, texts)?,
        lines,
        statements,
        main,
    })
}

/// The program of these declarations, whose table is given, with the line of each token.
/// A text of so many tokens has no more declarations; more than the most tokens of a text are refused for want of memory.
/// So are more constant texts than a `u32` counts.
#[tactic(auto, using(crate::proofs::Programs::bodies_stop))]
pub fn elaborate_unit(
    table: ClassTable,
    unit: &[Declaration],
    lines: Vec<u32>,
    alloc: Global,
) -> Result<Program, TypeError>
    requires { length lines.items ≤ token_limit }
    ensures program { Judged (table_of table) (λ j. Gives program_of result
        (program j (table_of table) (map declaration_of unit.now) (length lines.items))) }
    ensures lines { IfOk result (λ p. p.lines.items ≡ lines.items) }
    ensures texts { IfOk result (λ p. length p.fixed_texts.items < 2 ^ 32) }
{
    if unit.len() > TOKEN_LIMIT as usize {
        return Err(TypeError::NoMemory);
    }
    let places = places_of(alloc, &table, unit)?;
    let statements = statements_at(places.as_slice())?;
    let made = made_at(alloc, &table, unit, places)?;
    let main = main_found(&table, unit, lines.len() as u32)?;
    Ok(program_from(alloc, table, made, lines, statements, main)?)
}
