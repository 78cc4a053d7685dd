//! What initializers become (JLS 8.3.2, 8.6, 8.7).

ghost use Rattle.std.specs.Prelude.{◌≡◌, IfOk, Some, option_map};
ghost use Rattle.wy_constant.specs.Fields.{declared_field};
ghost use Rattle.wy_elab_body.specs.Bodies.{around_initializer, assigned_first, field_initial, field_number, initializer_block, or_zero, own_place};
ghost use Rattle.wy_elab_body.specs.Statements.{Setting as PlainSetting};
ghost use Rattle.wy_elab_body.specs.Views.{IsSetting, MakesTo, around_of, making_of, statements_seen};
ghost use Rattle.wy_table.specs.ClassTable.{table_of};
ghost use Rattle.wy_kernel.specs.View.{place as place_seen, statement};
ghost use Rattle.wy_syntax.specs.View.{block_of, class_of, declarator_of, initial_of, named_of, type_seen};

use crate::around::{Around, Outcome};
use crate::body::declared_type;
use crate::found::initialized;
use crate::make::{evaluated_set, plain};
use crate::making::Making;
use crate::on_this::read_local;
use crate::place::Role;
use crate::setting::Setting;
use crate::statement::block;
use std::alloc::{AllocError, Global};
use wy_constant::TypeError;
use wy_elab_expr::Texts;
use wy_kernel::form::{Place, Stmt};
use wy_kernel::types::Ty;
use wy_syntax::declaration::ClassSyntax;
use wy_syntax::expression::Initial;
use wy_syntax::name::{Named, WrittenType};
use wy_syntax::statement::{Block, Declarator};
use wy_table::table::ClassTable;

#[tactic(auto, using(wy_kernel::proofs::ExpressionViews::view_static, wy_kernel::proofs::ExpressionViews::view_field))]
fn own_place(alloc: Global, is_static: bool, field: u32, token: u32) -> Result<Place, AllocError>
    ensures { IfOk result (λ p. place_seen p ≡ own_place is_static field token) }
{
    if is_static {
        return Ok(Place::Static { field, site: token });
    }
    Ok(Place::Field {
        object: Box::new(alloc, read_local(0))?,
        field,
        site: token,
    })
}

fn number_in(table: &ClassTable, class: u32, name: &str) -> u32
    ensures { result ≡ or_zero (declared_field (table_of table.now).fields class name.now) }
{
    match table.field_number(class, name) {
        Some(field) => field,
        None => 0,
    }
}

fn field_number(setting: &Setting, class: u32, name: &str) -> u32
    ensures { (w : PlainSetting) → IsSetting setting.now w
        → result ≡ field_number w class name.now }
{
    number_in(setting.table, class, name)
}

fn assigned_first(
    setting: &Setting,
    making: &Making,
    texts: &mut Texts,
    class: u32,
    is_static: bool,
    ty: Ty,
    name: &Named,
    initial: &Initial,
) -> Result<Stmt, TypeError>
    ensures { (w : PlainSetting) → IsSetting setting.now w → MakesTo statement result
        (making_of making.now texts.new) (assigned_first w class is_static ty (named_of name.now)
        (initial_of initial.now) (making_of making.now texts.old)) }
{
    let field = field_number(setting, class, name.name.as_str());
    let place = own_place(setting.alloc, is_static, field, name.token)?;
    let value = initialized(setting, making, texts, ty, initial, name.token)?;
    let form = evaluated_set(setting.alloc, place, value, name.token)?;
    Ok(plain(setting, name.token, true, form))
}

/// What the initializer of a field becomes, if it has one.
pub fn field_initial(
    setting: &Setting,
    making: &Making,
    texts: &mut Texts,
    class: u32,
    is_static: bool,
    ty: &WrittenType,
    d: &Declarator,
) -> Result<Vec<Stmt>, TypeError>
    ensures { (w : PlainSetting)
        → IsSetting setting.now w → MakesTo statements_seen result (making_of making.now texts.new)
        (field_initial w class is_static (type_seen ty.now) (declarator_of d.now)
        (option_map initial_of d.now.initial) (making_of making.now texts.old)) }
{
    let Some(initial) = &d.initial else {
        return Ok(Vec::new(setting.alloc));
    };
    let ty = declared_type(setting, making, texts, ty, d.brackets)?;
    let made = assigned_first(
        setting, making, texts, class, is_static, ty, &d.name, initial,
    )?;
    Ok(vec![in setting.alloc; made]?)
}

fn around_initializer(
    setting: &Setting,
    class: &ClassSyntax,
    role: Role,
) -> Result<Around, AllocError>
    ensures { (w : PlainSetting) → IsSetting setting.now w
        → IfOk result (λ a. around_of a ≡ around_initializer w (class_of class.now) role) }
{
    let number = setting.number_of(class.name.token, role);
    Around::alone(setting.alloc, number, Outcome::NoReturn).inside(number)
}

/// What the block of an initializer becomes.
pub fn initializer_block(
    setting: &Setting,
    making: &mut Making,
    texts: &mut Texts,
    class: &ClassSyntax,
    role: Role,
    b: &Block,
) -> Result<Vec<Stmt>, TypeError>
    ensures { (w : PlainSetting) → IsSetting setting.now w
        → MakesTo statements_seen result (making_of making.new texts.new) (initializer_block w
        (class_of class.now) role (block_of b.now) (making_of making.old texts.old)) }
{
    let around = around_initializer(setting, class, role)?;
    let made = block(setting, &around, making, texts, b)?;
    Ok(vec![in setting.alloc; made]?)
}
