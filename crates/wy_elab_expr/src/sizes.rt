//! The sizes of an array that is made (JLS 15.10.1).

ghost use Rattle.std.specs.Prelude.{◌≡◌, map};
ghost use Rattle.wy_elab_expr.specs.Elaboration.{sizes_of};
ghost use Rattle.wy_elab_expr.specs.Views.{GetsTo, meaning_of, row_seen};

use crate::assignment::size_of;
use crate::meaning::Meaning;
use crate::texts::Texts;
use std::alloc::Global;
use wy_constant::TypeError;
use wy_kernel::form::Expr;

/// The forms of sizes, in order.
pub fn sizes_of(
    alloc: Global,
    texts: &mut Texts,
    sizes: Vec<Meaning>,
    token: u32,
) -> Result<Vec<Expr>, TypeError>
    ensures { GetsTo row_seen result texts.new
        (sizes_of (map meaning_of sizes.items) token texts.old) }
{
    let mut waiting = sizes;
    waiting.reverse();
    let mut forms = Vec::new(alloc);
    while let Some(m) = waiting.pop() {
        let form = size_of(alloc, texts, m, token)?;
        forms.push(form)?;
    }
    Ok(forms)
}
