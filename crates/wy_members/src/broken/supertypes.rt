//! What a class extends and implements, though it may not (JLS 8.1.1.2, 8.1.4, 8.1.5, 9.1.3).

ghost use Rattle.std.specs.Prelude.{◌≡◌, ◌+◌, ◌<◌, ◌^◌, ◌↔◌, ℕ, IsTrue, Some, length, map, option_map, slice_get};
ghost use Rattle.wy_kernel.specs.Subtyping.{Supertype};
ghost use Rattle.wy_kernel.specs.View.{class_of as row_of};
ghost use Rattle.wy_members.specs.Least.{Among, IsLeast};
ghost use Rattle.wy_overloads.specs.LineageView.{lineage_of};
ghost use Rattle.wy_members.specs.Names.{unit_of};
ghost use Rattle.wy_members.specs.Within.{ExtendsWrongly, HasWrongAbove, IsJudgedIn, NamesClass, NotExtended, WrongAboveAt};
ghost use Rattle.wy_syntax.specs.Syntax.{Named as NamedSyntax};
ghost use Rattle.wy_syntax.specs.View.{class_of, named_of};
ghost use Rattle.wy_kernel.specs.Program.{first_source_class};

use crate::broken::cycle::{Judged, is_judged};
use crate::broken::least::{lesser, token_where};
use crate::names::Names;
use wy_kernel::builtin::{FIRST_SOURCE_CLASS, OBJECT, THROWABLE};
use wy_kernel::types::Class;
use wy_overloads::lineage::Lineage;
use wy_overloads::subtyping::is_supertype;
use wy_syntax::declaration::ClassSyntax;
use wy_syntax::name::Named;

pub fn least_in_classes(names: &Names, judged: &Judged, classes: &[&ClassSyntax]) -> Option<u32>
    requires { length classes.now + first_source_class < 2 ^ 32 }
    ensures { IsLeast (Among (map (λ k. class_of k.now) classes.now)
        (WrongAboveAt (unit_of names.now) (lineage_of judged.now.lineage.now).classes)) result }
{
    let mut least = None;
    for (i, class) in classes.iter().enumerate() {
        let number = FIRST_SOURCE_CLASS + i as u32;
        let wrong = is_wrong(names, judged, number, class);
        least = lesser(least, token_where(wrong, class.name.token));
    }
    least
}

fn is_wrong(names: &Names, judged: &Judged, number: u32, class: &ClassSyntax) -> bool
    ensures { IsTrue result ↔ (IsJudgedIn (lineage_of judged.now.lineage.now).classes number
        × HasWrongAbove (unit_of names.now) (lineage_of judged.now.lineage.now).classes
        (class_of class.now)) }
{
    is_judged(judged, number) && has_wrong_above(names, judged.lineage, class)
}

fn has_wrong_above(names: &Names, lineage: &Lineage, class: &ClassSyntax) -> bool
    ensures { IsTrue result
        ↔ HasWrongAbove (unit_of names.now) (lineage_of lineage.now).classes (class_of class.now) }
{
    names_class(names, lineage, &class.interfaces) || extends_wrongly(names, lineage, &class.above)
}

fn names_class(names: &Names, lineage: &Lineage, written: &[Named]) -> bool
    ensures { IsTrue result
        ↔ ((i : ℕ) × (name : NamedSyntax) × (slice_get (map named_of written.now) i ≡ Some name)
        × NamesClass (unit_of names.now) (lineage_of lineage.now).classes name) }
{
    for name in written {
        if is_name_of_class(names, lineage, name) {
            return true;
        }
    }
    false
}

fn is_name_of_class(names: &Names, lineage: &Lineage, name: &Named) -> bool
    ensures { IsTrue result
        ↔ NamesClass (unit_of names.now) (lineage_of lineage.now).classes (named_of name.now) }
{
    match names.denoted(name.name.as_str()) {
        Some(d) => d < lineage.classes() && !lineage.class(d).is_interface,
        None => false,
    }
}

fn extends_wrongly(names: &Names, lineage: &Lineage, above: &Option<Named>) -> bool
    ensures { IsTrue result ↔ ExtendsWrongly (unit_of names.now) (lineage_of lineage.now).classes
        (option_map named_of above.now) }
{
    match above {
        Some(name) => is_wrong_to_extend(names, lineage, name),
        None => false,
    }
}

fn is_wrong_to_extend(names: &Names, lineage: &Lineage, name: &Named) -> bool
    ensures { IsTrue result ↔ ExtendsWrongly (unit_of names.now) (lineage_of lineage.now).classes
        (Some (named_of name.now)) }
{
    match names.denoted(name.name.as_str()) {
        Some(d) => d < lineage.classes() && is_not_extended(lineage, d, lineage.class(d)),
        None => false,
    }
}

fn is_not_extended(lineage: &Lineage, d: u32, class: &Class) -> bool
    ensures { IsTrue result ↔ NotExtended (lineage_of lineage.now).classes d (row_of class.now) }
{
    class.is_interface || class.is_final || is_hidden_in_library(lineage, d)
}

fn is_hidden_in_library(lineage: &Lineage, d: u32) -> bool
    ensures { IsTrue result
        ↔ ((d < first_source_class) × (d ≡ 0 → ⊥)
        × (Supertype (lineage_of lineage.now).classes d 2 → ⊥)) }
{
    d < FIRST_SOURCE_CLASS && d != OBJECT && !is_supertype(lineage, d, THROWABLE)
}
