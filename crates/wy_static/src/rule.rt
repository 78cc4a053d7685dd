//! What a statement, a form and the bodies of a program lead to. A number that the program hasn't is refused.

ghost use Rattle.std.specs.Prelude.{◌≡◌, ◌++◌, ◌∷◌, ◌<◌, [], length, map, option_map, IfOk, OnOk};
ghost use Rattle.std.specs.List.{flat_map, range_with_len};
ghost use Rattle.wy_kernel.specs.Parts.{program_of};
ghost use Rattle.wy_kernel.specs.Program.{class, field, is_source, method};
ghost use Rattle.wy_kernel.specs.Substatements.{statements_seen};
ghost use Rattle.wy_kernel.specs.View.{act, body_of, clause, clauses_of, expression, other, place as place_seen, present, statement, statements_of, test_of};
ghost use Rattle.wy_static.specs.Seen.{forms_seen, seen_by};
ghost use Rattle.wy_static.specs.Ways.{above_ways, act_forms, arms, decides, in_part, by_test, call_at, called, calling, catch_owner, choosing, constructing, converting, entry_ways, flow, form_ways, in_order, init_ways, initializing, into_body, is_absent, owned_ways, owner_of, placing, printing, start_ways, statement_ways, to, to_catch, to_catches, to_other, updating, way, ways_of};

use crate::form::{Owned, arm, put_forms};
use crate::point::{LinkKind, Point};
use crate::way::{Decides, Goal, Owner, Way};
use std::alloc::{AllocError, Global};
use wy_calls::Dispatcher;
use wy_kernel::builtin::{FIRST_SOURCE_CLASS, OBJECT};
use wy_kernel::form::{Body, CallForm, Catch, Expr, Place, Stmt, StmtForm};
use wy_kernel::operator::Primitive;
use wy_kernel::program::Program;
use wy_kernel::statements::statements_of;
use wy_kernel::types::{Base, NONE, Ty};

/// Object's `toString`.
const TO_STRING: u32 = 0;

// ---- statements

/// A statement as the owner of what it leads to.
pub fn owner_of(s: &Stmt) -> Owner
    ensures { result ≡ owner_of (statement s.now) }
{
    Owner {
        point: Point::Statement(s.number),
        site: s.site,
    }
}

fn way(kind: LinkKind, owner: Owner, point: Point) -> Way
    ensures { result ≡ way kind owner point }
{
    Way {
        kind,
        from: owner.point,
        goal: Goal::Known(point),
        site: owner.site,
    }
}

fn call_at(owner: Owner, site: u32, goal: Goal) -> Way
    ensures { result ≡ call_at owner site goal }
{
    Way {
        kind: LinkKind::Call,
        from: owner.point,
        goal,
        site,
    }
}

fn put_to(out: &mut Vec<Way>, kind: LinkKind, owner: Owner, s: &Stmt) -> Result<(), AllocError>
    ensures { OnOk result (out.new.items ≡ out.old.items ++ to kind owner (statement s.now)) }
{
    out.push(way(kind, owner, Point::Statement(s.number)))?;
    Ok(())
}

fn put_in_order(
    out: &mut Vec<Way>,
    kind: LinkKind,
    owner: Owner,
    parts: &[Stmt],
) -> Result<(), AllocError>
    ensures { OnOk result (out.new.items
        ≡ out.old.items ++ in_order kind owner (statements_of (map statement parts.now))) }
{
    let mut kind = kind;
    let mut owner = owner;
    for part in parts {
        put_to(out, kind, owner, part)?;
        kind = LinkKind::Next;
        owner = owner_of(part);
    }
    Ok(())
}

fn put_to_other(
    out: &mut Vec<Way>,
    kind: LinkKind,
    owner: Owner,
    s: &Option<Box<Stmt>>,
) -> Result<(), AllocError>
    ensures { OnOk result (out.new.items ≡ out.old.items ++ to_other kind owner (other s.now)) }
{
    match s {
        Some(s) => put_to(out, kind, owner, s),
        None => Ok(()),
    }
}

fn put_to_catches(out: &mut Vec<Way>, owner: Owner, clauses: &[Catch]) -> Result<(), AllocError>
    ensures { OnOk result (out.new.items
        ≡ out.old.items ++ to_catches owner (clauses_of (map clause clauses.now))) }
{
    for clause in clauses {
        put_to_catch(out, owner, clause)?;
    }
    Ok(())
}

fn put_to_catch(out: &mut Vec<Way>, owner: Owner, clause: &Catch) -> Result<(), AllocError>
    ensures { OnOk result (out.new.items
        ≡ out.old.items ++ to_catch owner clause.now.site (statement clause.now.block)) }
{
    let caught = Owner {
        point: Point::Catch(clause.site),
        site: clause.site,
    };
    out.push(Way {
        kind: LinkKind::Catch,
        from: owner.point,
        goal: Goal::Known(caught.point),
        site: clause.site,
    })?;
    put_to(out, LinkKind::Into, caught, &clause.block)
}

fn by_test(test: &Option<Expr>) -> LinkKind
    ensures { result ≡ by_test (test_of test.now) }
{
    match test {
        Some(_) => LinkKind::Arm(1),
        None => LinkKind::Into,
    }
}

fn put_flow(out: &mut Vec<Way>, owner: Owner, form: &StmtForm) -> Result<(), AllocError>
    ensures { OnOk result (out.new.items ≡ out.old.items ++ flow owner (act form.now)) }
{
    match form {
        StmtForm::Block { parts } => put_in_order(out, LinkKind::Into, owner, parts),
        StmtForm::If { yes, no, .. } => {
            put_to(out, LinkKind::Arm(1), owner, yes)?;
            put_to_other(out, LinkKind::Arm(0), owner, no)
        }
        StmtForm::While { body, .. } => put_to(out, LinkKind::Arm(1), owner, body),
        StmtForm::Do { body, .. } | StmtForm::Labelled { body } => {
            put_to(out, LinkKind::Into, owner, body)
        }
        StmtForm::For {
            inits,
            test,
            updates,
            body,
        } => {
            put_in_order(out, LinkKind::Into, owner, inits)?;
            put_to(out, by_test(test), owner, body)?;
            put_in_order(out, LinkKind::Next, owner_of(body), updates)
        }
        StmtForm::Try {
            first,
            catches,
            last,
        } => {
            put_to(out, LinkKind::Into, owner, first)?;
            put_to_catches(out, owner, catches)?;
            put_to_other(out, LinkKind::Into, owner, last)
        }
        StmtForm::Eval { .. }
        | StmtForm::Declare { .. }
        | StmtForm::Jump { .. }
        | StmtForm::Return { .. }
        | StmtForm::Throw { .. }
        | StmtForm::Print { .. } => Ok(()),
    }
}

// ---- calls and initializations

fn put_initializing(
    out: &mut Vec<Way>,
    owner: Owner,
    class: u32,
    site: u32,
) -> Result<(), AllocError>
    ensures { OnOk result (out.new.items ≡ out.old.items ++ initializing owner class site) }
{
    if class >= FIRST_SOURCE_CLASS {
        out.push(call_at(owner, site, Goal::Known(Point::Init(class))))?;
    }
    Ok(())
}

fn put_calling(out: &mut Vec<Way>, owner: Owner, method: u32, site: u32) -> Result<(), AllocError>
    ensures { OnOk result (out.new.items ≡ out.old.items ++ calling owner method site) }
{
    out.push(call_at(owner, site, Goal::Known(Point::Entry(method))))?;
    Ok(())
}

fn decides(ty: Ty) -> Decides
    ensures { result ≡ decides ty }
{
    let Ty::Of { base, brackets } = ty else {
        return Decides::Nothing;
    };
    if brackets > 0 {
        return Decides::Object;
    }
    match base {
        Base::Class(class) => Decides::Class(class),
        Base::Primitive(_) => Decides::Nothing,
    }
}

fn put_choosing(
    out: &mut Vec<Way>,
    dispatcher: &Dispatcher,
    owner: Owner,
    method: u32,
    ty: Ty,
    site: u32,
) -> Result<(), AllocError>
    ensures { OnOk result (out.new.items
        ≡ out.old.items ++ choosing (seen_by dispatcher.now) owner method ty site) }
{
    match decides(ty) {
        Decides::Class(class) => {
            out.push(call_at(owner, site, Goal::Chosen { method, class }))?;
            Ok(())
        }
        Decides::Object if (method as usize) < dispatcher.program.methods.len() => {
            put_calling(out, owner, dispatcher.dispatch(OBJECT, method), site)
        }
        Decides::Object => Err(AllocError),
        Decides::Nothing => Ok(()),
    }
}

fn put_converting(
    out: &mut Vec<Way>,
    dispatcher: &Dispatcher,
    owner: Owner,
    ty: Ty,
    site: u32,
) -> Result<(), AllocError>
    ensures { OnOk result (out.new.items
        ≡ out.old.items ++ converting (seen_by dispatcher.now) owner ty site) }
{
    put_choosing(out, dispatcher, owner, TO_STRING, ty, site)
}

#[tactic(auto, unfolding(wy_kernel::specs::View::present))]
fn put_constructing(
    out: &mut Vec<Way>,
    owner: Owner,
    constructor: u32,
    site: u32,
) -> Result<(), AllocError>
    ensures { OnOk result (out.new.items
        ≡ out.old.items ++ constructing owner (present constructor) site) }
{
    if constructor != NONE {
        put_calling(out, owner, constructor, site)?;
    }
    Ok(())
}

fn class_of_method(program: &Program, n: u32) -> Result<u32, AllocError>
    ensures { IfOk result (λ c. c ≡ (method (program_of program.now) n).class) }
{
    if n as usize >= program.methods.len() {
        return Err(AllocError);
    }
    Ok(program.method(n).class)
}

fn class_of_field(program: &Program, n: u32) -> Result<u32, AllocError>
    ensures { IfOk result (λ c. c ≡ (field (program_of program.now) n).class) }
{
    if n as usize >= program.fields.len() {
        return Err(AllocError);
    }
    Ok(program.field(n).class)
}

fn put_placing(
    out: &mut Vec<Way>,
    program: &Program,
    owner: Owner,
    place: &Place,
) -> Result<(), AllocError>
    ensures { OnOk result (out.new.items
        ≡ out.old.items ++ placing (program_of program.now) owner (place_seen place.now)) }
{
    match place {
        Place::Static { field, site } => {
            put_initializing(out, owner, class_of_field(program, *field)?, *site)
        }
        Place::Local { .. } | Place::Field { .. } | Place::Elem { .. } => Ok(()),
    }
}

fn is_absent(wide: &Option<Primitive>) -> bool
    ensures { result ≡ is_absent wide.now }
{
    match wide {
        Some(_) => false,
        None => true,
    }
}

fn put_updating(
    out: &mut Vec<Way>,
    dispatcher: &Dispatcher,
    owner: Owner,
    ty: Ty,
    value_ty: Ty,
    is_text: bool,
    site: u32,
) -> Result<(), AllocError>
    ensures { OnOk result (out.new.items
        ≡ out.old.items ++ updating (seen_by dispatcher.now) owner ty value_ty is_text site) }
{
    if is_text {
        put_converting(out, dispatcher, owner, ty, site)?;
        put_converting(out, dispatcher, owner, value_ty, site)?;
    }
    Ok(())
}

fn put_called(
    out: &mut Vec<Way>,
    dispatcher: &Dispatcher,
    owner: Owner,
    form: CallForm,
    method: u32,
    ty: Ty,
    site: u32,
) -> Result<(), AllocError>
    ensures { OnOk result (out.new.items
        ≡ out.old.items ++ called (seen_by dispatcher.now) owner form method ty site) }
{
    match form {
        CallForm::Static => {
            put_initializing(
                out,
                owner,
                class_of_method(dispatcher.program, method)?,
                site,
            )?;
            put_calling(out, owner, method, site)
        }
        CallForm::Direct => put_calling(out, owner, method, site),
        CallForm::Chosen => put_choosing(out, dispatcher, owner, method, ty, site),
    }
}

fn put_arms(out: &mut Vec<Way>, owner: Owner, site: u32) -> Result<(), AllocError>
    ensures { OnOk result (out.new.items ≡ out.old.items ++ arms owner site) }
{
    out.push(way(LinkKind::Arm(1), owner, arm(site, 1).point))?;
    out.push(way(LinkKind::Arm(0), owner, arm(site, 0).point))?;
    Ok(())
}

fn put_form(
    out: &mut Vec<Way>,
    dispatcher: &Dispatcher,
    owner: Owner,
    form: &Expr,
) -> Result<(), AllocError>
    ensures { OnOk result (out.new.items
        ≡ out.old.items ++ form_ways (seen_by dispatcher.now) owner (expression form.now)) }
{
    match form {
        Expr::Read { place } | Expr::Set { place, .. } => put_placing(
            out,
            dispatcher.program,
            owner,
            place,
        ),
        Expr::Upd {
            place,
            value_ty,
            ty,
            wide,
            site,
            ..
        } => {
            put_placing(out, dispatcher.program, owner, place)?;
            put_updating(
                out,
                dispatcher,
                owner,
                *ty,
                *value_ty,
                is_absent(wide),
                *site,
            )
        }
        Expr::Cond { site, .. } => put_arms(out, owner, *site),
        Expr::New {
            class,
            constructor,
            site,
            ..
        } => {
            put_initializing(out, owner, *class, *site)?;
            put_constructing(out, owner, *constructor, *site)
        }
        Expr::Call {
            form,
            method,
            ty,
            site,
            ..
        } => put_called(out, dispatcher, owner, *form, *method, *ty, *site),
        Expr::Cat {
            left_ty,
            right_ty,
            site,
            ..
        } => {
            put_converting(out, dispatcher, owner, *left_ty, *site)?;
            put_converting(out, dispatcher, owner, *right_ty, *site)
        }
        Expr::Const { .. }
        | Expr::Str { .. }
        | Expr::Un { .. }
        | Expr::Bin { .. }
        | Expr::Conv { .. }
        | Expr::Cast { .. }
        | Expr::InstanceOf { .. }
        | Expr::NewArray { .. }
        | Expr::Lib { .. } => Ok(()),
    }
}

// ---- a statement with its expressions

fn put_test<'a>(
    out: &mut Vec<Owned<'a>>,
    owner: Owner,
    part: &'a Option<Expr>,
) -> Result<(), AllocError>
    ensures { OnOk result (forms_seen out.new.items
        ≡ forms_seen out.old.items ++ in_part owner (test_of part.now)) }
{
    match part {
        Some(e) => put_forms(out, owner, e),
        None => Ok(()),
    }
}

/// The forms that a statement owns, and those in arms within them.
pub fn put_act_forms<'a>(
    out: &mut Vec<Owned<'a>>,
    owner: Owner,
    form: &'a StmtForm,
) -> Result<(), AllocError>
    ensures { OnOk result (forms_seen out.new.items
        ≡ forms_seen out.old.items ++ act_forms owner (act form.now)) }
{
    match form {
        StmtForm::Eval { value } | StmtForm::Throw { value } => put_forms(out, owner, value),
        StmtForm::If { test, .. } | StmtForm::While { test, .. } | StmtForm::Do { test, .. } => {
            put_forms(out, owner, test)
        }
        StmtForm::For { test, .. } => put_test(out, owner, test),
        StmtForm::Return { value } => put_test(out, owner, value),
        StmtForm::Print { operand, .. } => put_test(out, owner, operand),
        StmtForm::Block { .. }
        | StmtForm::Declare { .. }
        | StmtForm::Labelled { .. }
        | StmtForm::Jump { .. }
        | StmtForm::Try { .. } => Ok(()),
    }
}

fn put_printing(
    out: &mut Vec<Way>,
    dispatcher: &Dispatcher,
    owner: Owner,
    form: &StmtForm,
) -> Result<(), AllocError>
    ensures { OnOk result (out.new.items
        ≡ out.old.items ++ printing (seen_by dispatcher.now) owner (act form.now)) }
{
    match form {
        StmtForm::Print { ty, site, .. } => put_converting(out, dispatcher, owner, *ty, *site),
        StmtForm::Block { .. }
        | StmtForm::Eval { .. }
        | StmtForm::Declare { .. }
        | StmtForm::If { .. }
        | StmtForm::While { .. }
        | StmtForm::Do { .. }
        | StmtForm::For { .. }
        | StmtForm::Labelled { .. }
        | StmtForm::Jump { .. }
        | StmtForm::Return { .. }
        | StmtForm::Throw { .. }
        | StmtForm::Try { .. } => Ok(()),
    }
}

fn put_owned(out: &mut Vec<Way>, dispatcher: &Dispatcher, forms: &[Owned]) -> Result<(), AllocError>
    ensures { OnOk result (out.new.items ≡ out.old.items
        ++ flat_map (owned_ways (seen_by dispatcher.now)) (forms_seen forms.now)) }
{
    for owned in forms {
        put_form(out, dispatcher, owned.owner, owned.form)?;
    }
    Ok(())
}

fn put_statement(
    alloc: Global,
    out: &mut Vec<Way>,
    dispatcher: &Dispatcher,
    s: &Stmt,
) -> Result<(), AllocError>
    ensures { OnOk result (out.new.items
        ≡ out.old.items ++ statement_ways (seen_by dispatcher.now) (statement s.now)) }
{
    let owner = owner_of(s);
    let mut forms = Vec::new(alloc);
    put_act_forms(&mut forms, owner, &s.form)?;
    put_flow(out, owner, &s.form)?;
    put_printing(out, dispatcher, owner, &s.form)?;
    put_owned(out, dispatcher, &forms)
}

// ---- the program

fn site_of_method(program: &Program, n: u32) -> Result<u32, AllocError>
    ensures { IfOk result (λ site. site ≡ (method (program_of program.now) n).site) }
{
    if n as usize >= program.methods.len() {
        return Err(AllocError);
    }
    Ok(program.method(n).site)
}

fn site_of_class(program: &Program, n: u32) -> Result<u32, AllocError>
    ensures { IfOk result (λ site. site ≡ (class (program_of program.now) n).site) }
{
    if n as usize >= program.classes.len() {
        return Err(AllocError);
    }
    Ok(program.class(n).site)
}

fn put_start(out: &mut Vec<Way>, program: &Program) -> Result<(), AllocError>
    ensures { OnOk result (out.new.items ≡ out.old.items ++ start_ways (program_of program.now)) }
{
    let class = class_of_method(program, program.main)?;
    let owner = Owner {
        point: Point::Start,
        site: site_of_method(program, program.main)?,
    };
    put_calling(out, owner, program.main, owner.site)?;
    put_initializing(out, owner, class, site_of_class(program, class)?)
}

fn put_into_body(out: &mut Vec<Way>, owner: Owner, body: Option<&Body>) -> Result<(), AllocError>
    ensures { OnOk result (out.new.items
        ≡ out.old.items ++ into_body owner (option_map (λ b. body_of b.now) body.entry)) }
{
    match body {
        Some(body) => put_to(out, LinkKind::Into, owner, &body.block),
        None => Ok(()),
    }
}

fn put_entry(out: &mut Vec<Way>, program: &Program, n: u32) -> Result<(), AllocError>
    requires { n < length program.now.bodies.items }
    ensures { OnOk result (out.new.items ≡ out.old.items ++ entry_ways (program_of program.now) n) }
{
    let owner = Owner {
        point: Point::Entry(n),
        site: site_of_method(program, n)?,
    };
    put_into_body(out, owner, program.body(n))
}

#[tactic(auto, unfolding(wy_kernel::specs::View::present))]
fn put_above(out: &mut Vec<Way>, owner: Owner, above: u32) -> Result<(), AllocError>
    ensures { OnOk result (out.new.items ≡ out.old.items ++ above_ways owner (present above)) }
{
    if above != NONE {
        put_initializing(out, owner, above, owner.site)?;
    }
    Ok(())
}

fn above_class(program: &Program, n: u32) -> Result<u32, AllocError>
    ensures { IfOk result (λ above. present above ≡ (class (program_of program.now) n).above) }
{
    if n as usize >= program.classes.len() {
        return Err(AllocError);
    }
    Ok(program.class(n).above)
}

fn put_init(out: &mut Vec<Way>, program: &Program, n: u32) -> Result<(), AllocError>
    requires { n < length program.now.init_bodies.items }
    ensures { OnOk result (out.new.items ≡ out.old.items ++ init_ways (program_of program.now) n) }
{
    let owner = Owner {
        point: Point::Init(n),
        site: site_of_class(program, n)?,
    };
    put_into_body(out, owner, program.init_body(n))?;
    put_above(out, owner, above_class(program, n)?)
}

fn put_entries(out: &mut Vec<Way>, program: &Program) -> Result<(), AllocError>
    ensures { OnOk result (out.new.items ≡ out.old.items
        ++ flat_map (entry_ways (program_of program.now))
        (range_with_len 0 (length (program_of program.now).bodies))) }
{
    if program.bodies.len() >= NONE as usize {
        return Err(AllocError);
    }
    for n in 0..program.bodies.len() as u32 {
        put_entry(out, program, n)?;
    }
    Ok(())
}

fn put_inits(out: &mut Vec<Way>, program: &Program) -> Result<(), AllocError>
    ensures { OnOk result (out.new.items ≡ out.old.items
        ++ flat_map (init_ways (program_of program.now))
        (range_with_len 0 (length (program_of program.now).init_bodies))) }
{
    if program.init_bodies.len() >= NONE as usize {
        return Err(AllocError);
    }
    for n in 0..program.init_bodies.len() as u32 {
        put_init(out, program, n)?;
    }
    Ok(())
}

fn put_statements(
    alloc: Global,
    out: &mut Vec<Way>,
    dispatcher: &Dispatcher,
    statements: &[&Stmt],
) -> Result<(), AllocError>
    ensures { OnOk result (out.new.items ≡ out.old.items
        ++ flat_map (statement_ways (seen_by dispatcher.now)) (statements_seen statements.now)) }
{
    for s in statements {
        put_statement(alloc, out, dispatcher, s)?;
    }
    Ok(())
}

/// The ways of a program.
pub fn ways_of(alloc: Global, dispatcher: &Dispatcher) -> Result<Vec<Way>, AllocError>
    ensures { IfOk result (λ ways. ways.items ≡ ways_of (seen_by dispatcher.now)) }
{
    let program = dispatcher.program;
    let statements = statements_of(alloc, program)?;
    let mut ways = Vec::new(alloc);
    put_start(&mut ways, program)?;
    put_entries(&mut ways, program)?;
    put_inits(&mut ways, program)?;
    put_statements(alloc, &mut ways, dispatcher, &statements)?;
    Ok(ways)
}
