//! What the initializers of fields become that are declared together (JLS 8.3.2).

ghost use Rattle.std.specs.Prelude.{◌≡◌, map};
ghost use Rattle.wy_elab_body.specs.Bodies.{field_initials};
ghost use Rattle.wy_elab_body.specs.Statements.{Setting as PlainSetting};
ghost use Rattle.wy_elab_body.specs.Views.{IsSetting, MakesTo, making_of, statements_seen};
ghost use Rattle.wy_syntax.specs.View.{declarator_of, type_seen};

use wy_constant::TypeError;
use wy_elab_body::field::field_initial;
use wy_elab_body::making::Making;
use wy_elab_body::setting::Setting;
use wy_elab_expr::Texts;
use wy_kernel::form::Stmt;
use wy_syntax::name::WrittenType;
use wy_syntax::statement::Declarator;

/// What the initializers of fields become that are declared together.
#[tactic(auto, using(crate::proofs::Appended::begins))]
pub fn field_initials(
    setting: &Setting,
    making: &Making,
    texts: &mut Texts,
    class: u32,
    is_static: bool,
    ty: &WrittenType,
    all: &[Declarator],
) -> Result<Vec<Stmt>, TypeError>
    ensures { (w : PlainSetting) → IsSetting setting.now w
        → MakesTo statements_seen result (making_of making.now texts.new) (field_initials w class
        is_static (type_seen ty.now) (map declarator_of all.now) (making_of making.now texts.old)) }
{
    let mut made = Vec::new(setting.alloc);
    for d in all {
        let mut more = field_initial(setting, making, texts, class, is_static, ty, d)?;
        made.append(&mut more)?;
    }
    Ok(made)
}
