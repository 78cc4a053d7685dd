//! The refusal that is due for the declarations of a program: at the least token, and there by the first rule.

ghost use Rattle.std.specs.Prelude.{◌+◌, ◌<◌, ◌^◌, IfOk, MatchOption, length, map};
ghost use Rattle.wy_members.specs.Judging.{AreJudged};
ghost use Rattle.wy_members.specs.Least.{IsLeast};
ghost use Rattle.wy_overloads.specs.LineageView.{lineage_of};
ghost use Rattle.wy_members.specs.Names.{unit_of};
ghost use Rattle.wy_members.specs.Refusal.{IsRefusal, KeepsRules};
ghost use Rattle.wy_members.specs.Within.{BadOverridesIn, NotImplementedsIn, RepeatsIn};
ghost use Rattle.wy_kernel.specs.View.{class_of, field_of, method_of};
ghost use Rattle.wy_syntax.specs.View.{class_of as class_syntax};
ghost use Rattle.wy_kernel.specs.Program.{first_source_class};

use crate::broken::again::least_again;
use crate::broken::breach::Breach;
use crate::broken::compared::Compared;
use crate::broken::cycle::{Judged, least_cycle};
use crate::broken::first::earlier;
use crate::broken::least::lesser;
use crate::broken::methods::{
    least_declared_abstract, least_inheriting, least_left_abstract, least_overriding,
};
use crate::broken::{bodies, duplicate, supertypes, unknown};
use crate::names::Names;
use crate::rows::Rows;
use std::alloc::{AllocError, Global};
use wy_constant::Rule;
use wy_kernel::types::Method;
use wy_overloads::lineage::Lineage;
use wy_syntax::declaration::ClassSyntax;

/// The refusal that is due for a program whose declarations are these.
pub fn breach_in(
    alloc: Global,
    names: &Names,
    rows: &Rows,
    known: &[Method],
    classes: &[&ClassSyntax],
    judged: &Judged,
    compared: &Compared,
) -> Result<Option<Breach>, AllocError>
    requires judged { AreJudged (unit_of names.now) rows.now known.now classes.now
        (lineage_of judged.now.lineage.now) (lineage_of compared.now.lineage.now) }
    requires few { length classes.now + first_source_class < 2 ^ 32 }
    ensures { IfOk result (λ found. MatchOption found (KeepsRules (unit_of names.now)) (λ b.
        IsRefusal (unit_of names.now) b.rule b.token)) }
{
    let duplicate = least_duplicate(alloc, rows, known, classes)?;
    let unknown = unknown::least_in_classes(names, classes);
    let cycle = least_cycle(judged.lineage);
    let overriding = least_bad_override(names, classes, judged, compared);
    let unimplemented = least_not_implemented(classes, judged, compared);
    let found = earlier(None, Rule::Duplicate, duplicate);
    let found = earlier(found, Rule::UnknownName, unknown);
    let found = earlier(found, Rule::Cycle, cycle);
    let found = earlier(found, Rule::BadOverride, overriding);
    Ok(earlier(found, Rule::NotImplemented, unimplemented))
}

fn least_duplicate(
    alloc: Global,
    rows: &Rows,
    known: &[Method],
    classes: &[&ClassSyntax],
) -> Result<Option<u32>, AllocError>
    ensures { IfOk result (IsLeast
        (RepeatsIn (map class_of rows.now.classes.items) (map field_of rows.now.fields.items)
        (map method_of known.now) (map (λ k. class_syntax k.now) classes.now))) }
{
    let in_classes = least_again(alloc, &rows.classes)?;
    let in_fields = least_again(alloc, &rows.fields)?;
    let in_methods = least_again(alloc, known)?;
    let in_text = duplicate::least_in_classes(alloc, classes)?;
    Ok(lesser(lesser(in_classes, in_fields), lesser(in_methods, in_text)))
}

fn least_bad_override(
    names: &Names,
    classes: &[&ClassSyntax],
    judged: &Judged,
    compared: &Compared,
) -> Option<u32>
    requires { length classes.now + first_source_class < 2 ^ 32 }
    ensures { IsLeast (BadOverridesIn (unit_of names.now)
        (lineage_of judged.now.lineage.now).classes (lineage_of compared.now.lineage.now)
        (map (λ k. class_syntax k.now) classes.now)) result }
{
    let supertypes = supertypes::least_in_classes(names, judged, classes);
    let overriding = least_overriding(judged, compared);
    let inheriting = least_inheriting(judged, compared);
    lesser(supertypes, lesser(overriding, inheriting))
}

fn least_not_implemented(
    classes: &[&ClassSyntax],
    judged: &Judged,
    compared: &Compared,
) -> Option<u32>
    requires { length classes.now + first_source_class < 2 ^ 32 }
    ensures { IsLeast (NotImplementedsIn (lineage_of judged.now.lineage.now)
        (lineage_of compared.now.lineage.now) (map (λ k. class_syntax k.now) classes.now)) result }
{
    let declared = least_declared_abstract(judged);
    let left_in = least_left_abstract(judged, compared);
    let bodies = bodies::least_in_classes(judged, classes);
    lesser(declared, lesser(left_in, bodies))
}
