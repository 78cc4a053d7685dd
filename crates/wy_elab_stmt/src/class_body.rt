//! All bodies of a class, made in the order of the text (JLS 8.3.2, 8.4.7, 8.6 to 8.8).

ghost use Rattle.std.specs.Prelude.{◌≡◌, ◌∷◌, ◌++◌, ℕ, List, [], IfOk, Some, true, false, not, map, option_map};
ghost use Rattle.wy_constant.specs.Scope.{FixedText};
ghost use Rattle.wy_elab_expr.specs.Views.{GetsTo};
ghost use Rattle.wy_elab_body.specs.Bodies.{constructor_block, end_of, field_initials, implied_body, implied_constructor_block, initializer_block, method_block};
ghost use Rattle.wy_elab_stmt.specs.Classes.{class_bodies, fields_body, finished, implied_constructor, in_fields, in_initializer, is_static, member, members, none_yet, of_class, of_interface, whole};
ghost use Rattle.wy_elab_body.specs.Making.{begun};
ghost use Rattle.wy_elab_body.specs.Statements.{Setting as PlainSetting};
ghost use Rattle.wy_elab_stmt.specs.ClassViews.{at_rest, class_bodies_seen, growing_of, growth_of};
ghost use Rattle.wy_elab_body.specs.Views.{IsSetting, bodies_seen};
ghost use Rattle.wy_kernel.specs.View.{body_of};
ghost use Rattle.wy_syntax.specs.Syntax as plain;
ghost use Rattle.wy_syntax.specs.View.{block_of, class_of, declarator_of, header_of, member_of, outcome_of, own_call_of, placed_of, statement_of, statements_of, type_seen};

use crate::growth::{Growing, Growth, none_yet};
use std::alloc::AllocError;
use wy_constant::TypeError;
use wy_elab_body::body::{constructor_block, implied_constructor_block, method_block};
use wy_elab_body::class_places::{declares_constructor, has_fields_unit};
use wy_elab_body::making::begun;
use wy_elab_body::place::Role;
use wy_elab_body::setting::Setting;
use wy_elab_expr::Texts;
use wy_kernel::form::Body;
use wy_members::has_modifier;
use wy_syntax::declaration::{ClassSyntax, Header, Member, Modifier, Outcome, OwnCall, Placed};
use wy_syntax::name::WrittenType;
use wy_syntax::statement::{Block, Declarator, Statement};

/// The bodies of a class's methods by their numbers, and that of its initializer, which an interface has not.
#[derive(Drop)]
pub struct ClassBodies {
    pub bodies: Vec<Option<Body>>,
    pub initializer: Option<Body>,
}

fn is_static(modifiers: &[Placed]) -> bool
    ensures { result ≡ is_static (map placed_of modifiers.now) }
{
    has_modifier(Modifier::Static, modifiers)
}

// Whether the body of a method has `this`.
fn has_this(header: &Header) -> bool
    ensures { result ≡ not (is_static (header_of header.now).modifiers) }
{
    !is_static(header.modifiers.as_slice())
}

#[tactic(auto, using(wy_syntax::proofs::StatementViews::view_braced))]
fn end_of(b: &Block) -> u32
    ensures { result ≡ end_of (block_of b.now) }
{
    b.end
}

fn method_body(
    setting: &Setting,
    texts: &mut Texts,
    number: u32,
    header: &Header,
    outcome: &Outcome,
    b: &Block,
) -> Result<Body, TypeError>
    ensures { (w : PlainSetting) → IsSetting setting.now w → GetsTo body_of result texts.new (whole
        (begun number (not (is_static (header_of header.now).modifiers)) header.now.name.token)
        (end_of (block_of b.now)) (method_block w (header_of header.now) (outcome_of outcome.now)
        (block_of b.now)) texts.old) }
{
    let mut making = begun(setting.alloc, number, has_this(header), header.name.token)?;
    let block = method_block(setting, &mut making, texts, header, outcome, b)?;
    Ok(Body {
        block,
        locals: making.locals,
        end: end_of(b),
    })
}

fn constructor_body(
    setting: &Setting,
    texts: &mut Texts,
    number: u32,
    class: &ClassSyntax,
    header: &Header,
    own_call: &Option<OwnCall>,
    brace: u32,
    parts: &[Statement],
    end: u32,
) -> Result<Body, TypeError>
    ensures { (w : PlainSetting) → IsSetting setting.now w
        → GetsTo body_of result texts.new (whole (begun number true header.now.name.token) end
        (constructor_block w number (class_of class.now) (header_of header.now) (option_map
        own_call_of own_call.now) brace (statements_of (map statement_of parts.now))) texts.old) }
{
    let mut making = begun(setting.alloc, number, true, header.name.token)?;
    let block = constructor_block(
        setting,
        &mut making,
        texts,
        number,
        class,
        header,
        own_call,
        brace,
        parts,
    )?;
    Ok(Body {
        block,
        locals: making.locals,
        end,
    })
}

fn implied_constructor_body(
    setting: &Setting,
    texts: &mut Texts,
    number: u32,
    class: &ClassSyntax,
) -> Result<Body, TypeError>
    ensures { (w : PlainSetting) → IsSetting setting.now w
        → GetsTo body_of result texts.new (whole (begun number true class.now.name.token)
        class.now.name.token (implied_constructor_block w number (class_of class.now)) texts.old) }
{
    let site = class.name.token;
    let making = begun(setting.alloc, number, true, site)?;
    let block = implied_constructor_block(setting, &making, texts, number, class)?;
    Ok(Body {
        block,
        locals: making.locals,
        end: site,
    })
}

// The body of the constructor of a class that declares none.
#[tactic(auto, unfolding(crate::specs::Classes::implied_constructor))]
fn implied_constructor(
    setting: &Setting,
    texts: &mut Texts,
    number: u32,
    class: &ClassSyntax,
) -> Result<Vec<Option<Body>>, TypeError>
    ensures { (w : PlainSetting) → IsSetting setting.now w → GetsTo bodies_seen result texts.new
        (implied_constructor w number (class_of class.now) texts.old) }
{
    if declares_constructor(class) {
        return Ok(Vec::new(setting.alloc));
    }
    let body = implied_constructor_body(setting, texts, number, class)?;
    Ok(vec![in setting.alloc; Some(body)]?)
}

// An initializer of the class.
fn add_static_block(
    setting: &Setting,
    growth: &mut Growth,
    texts: &mut Texts,
    class: &ClassSyntax,
    b: &Block,
) -> Result<(), TypeError>
    ensures { (w : PlainSetting) (first second : List FixedText)
        → IsSetting setting.now w → GetsTo (λ u. growth_of growth.new [] []) result texts.new
        (at_rest (in_initializer (growth_of growth.old first second) (initializer_block w
        (class_of class.now) Role.InitializerBody (block_of b.now)) texts.old)) }
{
    growth
        .initializer
        .add_block(setting, texts, class, Role::InitializerBody, b)?;
    Ok(())
}

// An initializer of objects.
fn add_instance_block(
    setting: &Setting,
    growth: &mut Growth,
    texts: &mut Texts,
    class: &ClassSyntax,
    b: &Block,
) -> Result<(), TypeError>
    ensures { (w : PlainSetting) (first second : List FixedText)
        → IsSetting setting.now w → GetsTo (λ u. growth_of growth.new [] []) result texts.new
        (at_rest (in_fields (growth_of growth.old first second)
        (initializer_block w (class_of class.now) Role.FieldsBody (block_of b.now)) texts.old)) }
{
    growth
        .fields
        .add_block(setting, texts, class, Role::FieldsBody, b)?;
    Ok(())
}

#[tactic(auto, unfolding(crate::specs::Classes::member))]
fn add_block(
    setting: &Setting,
    growth: &mut Growth,
    texts: &mut Texts,
    class: &ClassSyntax,
    is_static: bool,
    b: &Block,
) -> Result<(), TypeError>
    ensures { (w : PlainSetting) (c : ℕ) (first second : List FixedText)
        → IsSetting setting.now w → GetsTo (λ u. growth_of growth.new [] []) result texts.new
        (at_rest (member w c (class_of class.now) (growth_of growth.old first second)
        (plain.Initializer is_static (block_of b.now)) texts.old)) }
{
    if is_static {
        add_static_block(setting, growth, texts, class, b)
    } else {
        add_instance_block(setting, growth, texts, class, b)
    }
}

// The initializers of static fields.
fn add_static_fields(
    setting: &Setting,
    growth: &mut Growth,
    texts: &mut Texts,
    number: u32,
    ty: &WrittenType,
    all: &[Declarator],
) -> Result<(), TypeError>
    ensures { (w : PlainSetting) (first second : List FixedText)
        → IsSetting setting.now w → GetsTo (λ u. growth_of growth.new [] []) result texts.new
        (at_rest (in_initializer (growth_of growth.old first second)
        (field_initials w number true (type_seen ty.now) (map declarator_of all.now)) texts.old)) }
{
    growth
        .initializer
        .add_fields(setting, texts, number, true, ty, all)?;
    Ok(())
}

// The initializers of fields of objects.
fn add_instance_fields(
    setting: &Setting,
    growth: &mut Growth,
    texts: &mut Texts,
    number: u32,
    ty: &WrittenType,
    all: &[Declarator],
) -> Result<(), TypeError>
    ensures { (w : PlainSetting) (first second : List FixedText)
        → IsSetting setting.now w → GetsTo (λ u. growth_of growth.new [] []) result texts.new
        (at_rest (in_fields (growth_of growth.old first second)
        (field_initials w number false (type_seen ty.now) (map declarator_of all.now)) texts.old)) }
{
    growth
        .fields
        .add_fields(setting, texts, number, false, ty, all)?;
    Ok(())
}

#[tactic(auto, unfolding(crate::specs::Classes::member))]
fn add_fields(
    setting: &Setting,
    growth: &mut Growth,
    texts: &mut Texts,
    number: u32,
    modifiers: &[Placed],
    ty: &WrittenType,
    all: &[Declarator],
) -> Result<(), TypeError>
    ensures { (w : PlainSetting) (k : plain.ClassSyntax) (first second : List FixedText)
        → IsSetting setting.now w → GetsTo (λ u. growth_of growth.new [] []) result texts.new
        (at_rest (member w number k (growth_of growth.old first second) (plain.Fields
        (map placed_of modifiers.now) (type_seen ty.now) (map declarator_of all.now)) texts.old)) }
{
    if is_static(modifiers) {
        add_static_fields(setting, growth, texts, number, ty, all)
    } else {
        add_instance_fields(setting, growth, texts, number, ty, all)
    }
}

#[tactic(auto, unfolding(crate::specs::Classes::member))]
fn add_method(
    setting: &Setting,
    growth: &mut Growth,
    texts: &mut Texts,
    number: u32,
    header: &Header,
    outcome: &Outcome,
    body: &Option<Block>,
) -> Result<(), TypeError>
    ensures { (w : PlainSetting) (k : plain.ClassSyntax) (first second : List FixedText)
        → IsSetting setting.now w → GetsTo (λ u. growth_of growth.new [] []) result texts.new
        (at_rest (member w number k (growth_of growth.old first second) (plain.Method (header_of
        header.now) (outcome_of outcome.now) (option_map block_of body.now)) texts.old)) }
{
    match body {
        None => Ok(growth.add(None)?),
        Some(b) => {
            let made = method_body(setting, texts, number, header, outcome, b)?;
            Ok(growth.add(Some(made))?)
        }
    }
}

#[tactic(auto, unfolding(crate::specs::Classes::member))]
fn add_constructor(
    setting: &Setting,
    growth: &mut Growth,
    texts: &mut Texts,
    number: u32,
    class: &ClassSyntax,
    header: &Header,
    own_call: &Option<OwnCall>,
    brace: u32,
    parts: &[Statement],
    end: u32,
) -> Result<(), TypeError>
    ensures { (w : PlainSetting) (first second : List FixedText)
        → IsSetting setting.now w → GetsTo (λ u. growth_of growth.new [] []) result texts.new
        (at_rest (member w number (class_of class.now) (growth_of growth.old first second)
        (plain.Constructor (header_of header.now) (option_map own_call_of own_call.now) brace
        (statements_of (map statement_of parts.now)) end) texts.old)) }
{
    let made = constructor_body(
        setting, texts, number, class, header, own_call, brace, parts, end,
    )?;
    Ok(growth.add(Some(made))?)
}

#[tactic(auto, unfolding(crate::specs::Classes::member))]
fn member(
    setting: &Setting,
    growth: &mut Growth,
    texts: &mut Texts,
    number: u32,
    class: &ClassSyntax,
    m: &Member,
) -> Result<(), TypeError>
    ensures { (w : PlainSetting) (first second : List FixedText) → IsSetting setting.now w
        → GetsTo (λ u. growth_of growth.new [] []) result texts.new (at_rest (member w number
        (class_of class.now) (growth_of growth.old first second) (member_of m.now) texts.old)) }
{
    match m {
        Member::Initializer { is_static, block } => {
            add_block(setting, growth, texts, class, *is_static, block)
        }
        Member::Fields {
            modifiers,
            ty,
            declarators,
        } => add_fields(
            setting,
            growth,
            texts,
            number,
            modifiers.as_slice(),
            ty,
            declarators.as_slice(),
        ),
        Member::Method {
            header,
            result: outcome,
            body,
        } => add_method(setting, growth, texts, number, header, outcome, body),
        Member::Constructor {
            header,
            own_call,
            brace,
            parts,
            end,
        } => add_constructor(
            setting,
            growth,
            texts,
            number,
            class,
            header,
            own_call,
            *brace,
            parts.as_slice(),
            *end,
        ),
        Member::Nothing => Ok(()),
        Member::Wrong => Ok(()),
    }
}

// Makes what members become, one after another.
fn members(
    setting: &Setting,
    growth: &mut Growth,
    texts: &mut Texts,
    number: u32,
    class: &ClassSyntax,
    all: &[Member],
) -> Result<(), TypeError>
    ensures { (w : PlainSetting) (first second : List FixedText) → IsSetting setting.now w → GetsTo
        (λ u. growth_of growth.new [] []) result texts.new (at_rest (members w number (class_of
        class.now) (growth_of growth.old first second) (map member_of all.now) texts.old)) }
{
    for m in all {
        member(setting, growth, texts, number, class, m)?;
    }
    Ok(())
}

fn all_members(
    setting: &Setting,
    texts: &mut Texts,
    number: u32,
    class: &ClassSyntax,
) -> Result<Growth, TypeError>
    ensures { (w : PlainSetting) → IsSetting setting.now w → GetsTo (λ g.
        growth_of g [] []) result texts.new (at_rest (members w number (class_of class.now)
        (none_yet number (class_of class.now)) (class_of class.now).members texts.old)) }
{
    let mut growth = none_yet(setting.alloc, number, class)?;
    members(
        setting,
        &mut growth,
        texts,
        number,
        class,
        class.members.as_slice(),
    )?;
    Ok(growth)
}

// Bodies, and others behind them.
fn both(
    mut front: Vec<Option<Body>>,
    mut rest: Vec<Option<Body>>,
) -> Result<Vec<Option<Body>>, AllocError>
    ensures { IfOk result (λ all. bodies_seen all ≡ bodies_seen front ++ bodies_seen rest) }
{
    front.append(&mut rest)?;
    Ok(front)
}

// The body of the instance initializers, of which there are some.
fn own_fields(
    setting: &Setting,
    class: &ClassSyntax,
    fields: Growing,
) -> Result<Vec<Option<Body>>, AllocError>
    ensures { (w : PlainSetting) (stale : List FixedText)
        → IsSetting setting.now w → IfOk result (λ all. bodies_seen all ≡ Some
        (implied_body w (class_of class.now) Role.FieldsBody (growing_of fields stale)) ∷ []) }
{
    let body = fields.implied_body(setting, class, Role::FieldsBody);
    Ok(vec![in setting.alloc; Some(body)]?)
}

fn fields_body(
    setting: &Setting,
    class: &ClassSyntax,
    fields: Growing,
) -> Result<Vec<Option<Body>>, AllocError>
    ensures { (w : PlainSetting) (stale : List FixedText) → IsSetting setting.now w → IfOk result
        (λ all. bodies_seen all ≡ fields_body w (class_of class.now) (growing_of fields stale)) }
{
    if has_fields_unit(class) {
        own_fields(setting, class, fields)
    } else {
        Ok(Vec::new(setting.alloc))
    }
}

fn finished(
    setting: &Setting,
    class: &ClassSyntax,
    implied: Vec<Option<Body>>,
    growth: Growth,
) -> Result<ClassBodies, AllocError>
    ensures { (w : PlainSetting) (first second : List FixedText) → IsSetting setting.now w
        → IfOk result (λ all. class_bodies_seen all ≡ finished w (class_of class.now)
        (bodies_seen implied) (growth_of growth first second)) }
{
    let own = fields_body(setting, class, growth.fields)?;
    let front = both(own, implied)?;
    let bodies = both(front, growth.bodies)?;
    let initializer = growth
        .initializer
        .implied_body(setting, class, Role::InitializerBody);
    Ok(ClassBodies {
        bodies,
        initializer: Some(initializer),
    })
}

fn of_class(
    setting: &Setting,
    texts: &mut Texts,
    number: u32,
    class: &ClassSyntax,
) -> Result<ClassBodies, TypeError>
    ensures { (w : PlainSetting) → IsSetting setting.now w → GetsTo class_bodies_seen result
        texts.new (of_class w number (class_of class.now) texts.old) }
{
    let implied = implied_constructor(setting, texts, number, class)?;
    let growth = all_members(setting, texts, number, class)?;
    Ok(finished(setting, class, implied, growth)?)
}

fn of_interface(
    setting: &Setting,
    texts: &mut Texts,
    number: u32,
    class: &ClassSyntax,
) -> Result<ClassBodies, TypeError>
    ensures { (w : PlainSetting) → IsSetting setting.now w → GetsTo class_bodies_seen result
        texts.new (of_interface w number (class_of class.now) texts.old) }
{
    let growth = all_members(setting, texts, number, class)?;
    Ok(ClassBodies {
        bodies: growth.bodies,
        initializer: None,
    })
}

/// The bodies of a class or an interface with this number in the table.
#[tactic(auto, unfolding(crate::specs::Classes::class_bodies))]
pub fn class_bodies(
    setting: &Setting,
    texts: &mut Texts,
    number: u32,
    class: &ClassSyntax,
) -> Result<ClassBodies, TypeError>
    ensures { (w : PlainSetting) → IsSetting setting.now w → GetsTo class_bodies_seen result
        texts.new (class_bodies w number (class_of class.now) texts.old) }
{
    if class.is_interface {
        of_interface(setting, texts, number, class)
    } else {
        of_class(setting, texts, number, class)
    }
}
