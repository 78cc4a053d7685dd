//! The least tokens at which methods may not stand, over all classes and methods of a program (JLS 8.1.1.1, 8.4.8, 9.4.1).
//! `judged` has all classes and methods, `compared` those methods that are compared, below the supertypes that fit.

ghost use Rattle.std.specs.Prelude.{◌≡◌, ◌↔◌, IsTrue, false, true};
ghost use Rattle.wy_kernel.specs.View.{method_of};
ghost use Rattle.wy_members.specs.Least.{Among, IsLeast};
ghost use Rattle.wy_overloads.specs.Choice.{IsMethod};
ghost use Rattle.wy_overloads.specs.LineageView.{lineage_of};
ghost use Rattle.wy_members.specs.Within.{DeclaresAt, InheritsAt, InheritsWrongly, IsConcrete, IsJudgedIn, LeavesAbstract, LeavesAt, OverridesAt, OverridesWrongly};

use crate::broken::compared::Compared;
use crate::broken::cycle::{Judged, is_judged};
use crate::broken::least::{lesser, token_where};
use crate::broken::overriding::{inherits_wrongly, leaves_abstract, overrides_wrongly};
use wy_kernel::types::{Class, Method};
use wy_overloads::lineage::Lineage;

pub fn least_overriding(judged: &Judged, compared: &Compared) -> Option<u32>
    ensures { IsLeast (Among (lineage_of compared.now.lineage.now).methods
        (OverridesAt (lineage_of judged.now.lineage.now).classes
        (lineage_of compared.now.lineage.now))) result }
{
    let mut least = None;
    for k in 0..compared.lineage.methods() {
        let m = compared.lineage.method(k);
        let wrong = is_overriding_wrong(judged, compared, k, m);
        least = lesser(least, token_where(wrong, m.site));
    }
    least
}

fn is_overriding_wrong(judged: &Judged, compared: &Compared, k: u32, m: &Method) -> bool
    requires { IsMethod (lineage_of compared.now.lineage.now) k (method_of m.now) }
    ensures { IsTrue result ↔ (IsJudgedIn (lineage_of judged.now.lineage.now).classes m.now.class
        × OverridesWrongly (lineage_of compared.now.lineage.now) (method_of m.now)) }
{
    is_judged(judged, m.class) && overrides_wrongly(compared.lineage, k, m)
}

pub fn least_inheriting(judged: &Judged, compared: &Compared) -> Option<u32>
    ensures { IsLeast (Among (lineage_of compared.now.lineage.now).classes
        (InheritsAt (lineage_of judged.now.lineage.now).classes
        (lineage_of compared.now.lineage.now))) result }
{
    let mut least = None;
    for c in 0..compared.lineage.classes() {
        let class = compared.lineage.class(c);
        let wrong = is_inheriting_wrong(judged, compared, c);
        least = lesser(least, token_where(wrong, class.site));
    }
    least
}

fn is_inheriting_wrong(judged: &Judged, compared: &Compared, c: u32) -> bool
    ensures { IsTrue result ↔ (IsJudgedIn (lineage_of judged.now.lineage.now).classes c
        × InheritsWrongly (lineage_of compared.now.lineage.now) c) }
{
    is_judged(judged, c) && inherits_wrongly(compared, c)
}

pub fn least_left_abstract(judged: &Judged, compared: &Compared) -> Option<u32>
    ensures { IsLeast (Among (lineage_of compared.now.lineage.now).classes
        (LeavesAt (lineage_of judged.now.lineage.now).classes
        (lineage_of compared.now.lineage.now))) result }
{
    let mut least = None;
    for c in 0..compared.lineage.classes() {
        let class = compared.lineage.class(c);
        let wrong = is_left_incomplete(judged, compared, c, class);
        least = lesser(least, token_where(wrong, class.site));
    }
    least
}

fn is_left_incomplete(judged: &Judged, compared: &Compared, c: u32, class: &Class) -> bool
    ensures { IsTrue result ↔ (IsJudgedIn (lineage_of judged.now.lineage.now).classes c
        × (class.now.is_abstract ≡ false)
        × LeavesAbstract (lineage_of compared.now.lineage.now) c) }
{
    is_judged(judged, c) && !class.is_abstract && leaves_abstract(compared, c)
}

pub fn least_declared_abstract(judged: &Judged) -> Option<u32>
    ensures { IsLeast (Among (lineage_of judged.now.lineage.now).methods
        (DeclaresAt (lineage_of judged.now.lineage.now).classes)) result }
{
    let mut least = None;
    for k in 0..judged.lineage.methods() {
        let m = judged.lineage.method(k);
        let wrong = is_declared_wrongly(judged, m);
        least = lesser(least, token_where(wrong, m.site));
    }
    least
}

fn is_declared_wrongly(judged: &Judged, m: &Method) -> bool
    ensures { IsTrue result ↔ (IsJudgedIn (lineage_of judged.now.lineage.now).classes m.now.class
        × (m.now.is_abstract ≡ true)
        × IsConcrete (lineage_of judged.now.lineage.now).classes m.now.class) }
{
    is_judged(judged, m.class) && m.is_abstract && is_concrete(judged.lineage, m.class)
}

fn is_concrete(lineage: &Lineage, c: u32) -> bool
    ensures { IsTrue result ↔ IsConcrete (lineage_of lineage.now).classes c }
{
    c < lineage.classes() && !lineage.class(c).is_abstract
}
