//! The refusal that is due for a program's declarations, from the rows of its table.
//! What is judged and compared is made here; the rules themselves are decided elsewhere.

ghost use Rattle.std.specs.Prelude.{◌+◌, ◌<◌, ◌^◌, IfOk, MatchOption, length};
ghost use Rattle.wy_kernel.specs.Program.{first_source_class};
ghost use Rattle.wy_members.specs.Judging.{AreJudged};
ghost use Rattle.wy_members.specs.Names.{unit_of};
ghost use Rattle.wy_members.specs.Refusal.{IsRefusal, KeepsRules};
ghost use Rattle.wy_members.specs.Rows.{AreRows};
ghost use Rattle.wy_overloads.specs.LineageView.{lineage_of};

use crate::broken::breach::Breach;
use crate::broken::compared::{Compared, Sought, first_alike};
use crate::broken::cycle::{Judged, cyclic_classes};
use crate::broken::extended::extended;
use crate::broken::fitting::fitting_classes;
use crate::broken::inheriting::inheriting_methods;
use crate::broken::judging::breach_in;
use crate::broken::known::known_methods;
use crate::broken::text::classes_in;
use crate::names::Names;
use crate::rows::Rows;
use std::alloc::{AllocError, Global};
use wy_kernel::types::Method;
use wy_overloads::lineage::Lineage;
use wy_syntax::declaration::ClassSyntax;
use wy_table::hierarchy::hierarchy_of;
use wy_table::methods::MethodIndex;

/// The rule that the declarations of a program break at their least token, and there the first, if they break one.
pub fn refusal(alloc: Global, names: &Names, rows: &Rows) -> Result<Option<Breach>, AllocError>
    requires { AreRows (unit_of names.now) rows.now }
    ensures { IfOk result (λ found. MatchOption found (KeepsRules (unit_of names.now)) (λ b.
        IsRefusal (unit_of names.now) b.rule b.token)) }
{
    let texts = classes_in(alloc, names.unit)?;
    let known = known_methods(alloc, names)?;
    let inheriting = inheriting_methods(alloc, known.as_slice())?;
    let fitting = fitting_classes(alloc, rows.classes.as_slice())?;
    let above = hierarchy_of(alloc, rows.classes.as_slice())?;
    let above_fitting = hierarchy_of(alloc, fitting.as_slice())?;
    let index = MethodIndex::of(alloc, rows.methods.as_slice())?;
    let index_inheriting = MethodIndex::of(alloc, inheriting.as_slice())?;
    let lineage = Lineage::of_rows(
        rows.classes.as_slice(),
        rows.methods.as_slice(),
        &above,
        &index,
    );
    let inherited = Lineage::of_rows(
        fitting.as_slice(),
        inheriting.as_slice(),
        &above_fitting,
        &index_inheriting,
    );
    refusal_by(
        alloc,
        names,
        rows,
        known.as_slice(),
        texts.as_slice(),
        &lineage,
        &inherited,
    )
}

// The same, from the classes and methods that are judged and those that are compared.
fn refusal_by(
    alloc: Global,
    names: &Names,
    rows: &Rows,
    known: &[Method],
    texts: &[&ClassSyntax],
    lineage: &Lineage,
    inherited: &Lineage,
) -> Result<Option<Breach>, AllocError>
    requires judged { AreJudged (unit_of names.now) rows.now known.now texts.now
        (lineage_of lineage.now) (lineage_of inherited.now) }
    requires few { length texts.now + first_source_class < 2 ^ 32 }
    ensures { IfOk result (λ found. MatchOption found (KeepsRules (unit_of names.now)) (λ b.
        IsRefusal (unit_of names.now) b.rule b.token)) }
{
    let cyclic = cyclic_classes(alloc, lineage)?;
    let judged = Judged {
        lineage,
        cyclic: cyclic.as_slice(),
    };
    let marks = extended(alloc, inherited)?;
    let shared = first_alike(alloc, inherited, &marks, Sought::Each)?;
    let unfinished = first_alike(alloc, inherited, &marks, Sought::Abstract)?;
    let compared = Compared {
        lineage: inherited,
        shared: shared.as_slice(),
        unfinished: unfinished.as_slice(),
    };
    breach_in(alloc, names, rows, known, texts, &judged, &compared)
}
