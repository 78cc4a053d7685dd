//! Methods and constructors with a body where none may stand, or without one (JLS 8.4.3.1, 8.4.7, 8.8.3, 9.4).
//! What is in a body isn't read.

ghost use Rattle.std.specs.Prelude.{◌≡◌, ◌+◌, ◌<◌, ◌^◌, ◌↔◌, IsTrue, length, map, option_map, true};
ghost use Rattle.wy_syntax.specs.declared.declaration.Modifier.TheVariants as modifier;
ghost use Rattle.wy_members.specs.Declarations.{has};
ghost use Rattle.wy_members.specs.Least.{Among, IsLeast};
ghost use Rattle.wy_overloads.specs.LineageView.{lineage_of};
ghost use Rattle.wy_members.specs.Within.{InClassNumbered, WantsBody, WantsNoBody, WrongBody, WrongBodyAt, WrongBodyIn};
ghost use Rattle.wy_syntax.specs.View.{block_of, class_of, header_of, member_of};
ghost use Rattle.wy_kernel.specs.Program.{first_source_class};

use crate::broken::cycle::{Judged, is_judged};
use crate::broken::least::{lesser, token_where};
use crate::written_type::has;
use wy_kernel::builtin::FIRST_SOURCE_CLASS;
use wy_syntax::declaration::{ClassSyntax, Header, Member, Modifier};
use wy_syntax::statement::Block;

pub fn least_in_classes(judged: &Judged, classes: &[&ClassSyntax]) -> Option<u32>
    requires { length classes.now + first_source_class < 2 ^ 32 }
    ensures { IsLeast (Among (map (λ k. class_of k.now) classes.now)
        (WrongBodyAt (lineage_of judged.now.lineage.now).classes)) result }
{
    let mut least = None;
    for (i, class) in classes.iter().enumerate() {
        let number = FIRST_SOURCE_CLASS + i as u32;
        least = lesser(least, least_in_class(judged, number, class));
    }
    least
}

fn least_in_class(judged: &Judged, number: u32, class: &ClassSyntax) -> Option<u32>
    ensures { IsLeast
        (InClassNumbered (lineage_of judged.now.lineage.now).classes number
        (class_of class.now)) result }
{
    if !is_judged(judged, number) {
        return None;
    }
    least_in_members(class.is_interface, &class.members)
}

fn least_in_members(in_interface: bool, members: &[Member]) -> Option<u32>
    ensures { IsLeast
        (Among (map member_of members.now) (λ j m. WrongBodyIn in_interface m)) result }
{
    let mut least = None;
    for member in members {
        least = lesser(least, least_in_member(in_interface, member));
    }
    least
}

fn least_in_member(in_interface: bool, member: &Member) -> Option<u32>
    ensures { IsLeast (WrongBodyIn in_interface (member_of member.now)) result }
{
    match member {
        Member::Method { header, body, .. } => {
            token_where(
                has_wrong_body(in_interface, header, body),
                header.name.token,
            )
        }
        Member::Constructor { header, .. } => {
            token_where(is_abstract(header), header.name.token)
        }
        Member::Fields { .. } => None,
        Member::Nothing => None,
        Member::Initializer { .. } => None,
        Member::Wrong => None,
    }
}

fn is_abstract(header: &Header) -> bool
    ensures { IsTrue result ↔ (has modifier.Abstract (header_of header.now).modifiers ≡ true) }
{
    has(Modifier::Abstract, header.modifiers.as_slice())
}

fn has_wrong_body(in_interface: bool, header: &Header, body: &Option<Block>) -> bool
    ensures { IsTrue result
        ↔ WrongBody in_interface (header_of header.now) (option_map block_of body.now) }
{
    match body {
        Some(_) => wants_no_body(in_interface, header),
        None => wants_body(in_interface, header),
    }
}

fn wants_no_body(in_interface: bool, header: &Header) -> bool
    ensures { IsTrue result ↔ WantsNoBody in_interface (header_of header.now) }
{
    in_interface || has(Modifier::Abstract, header.modifiers.as_slice())
}

fn wants_body(in_interface: bool, header: &Header) -> bool
    ensures { IsTrue result ↔ WantsBody in_interface (header_of header.now) }
{
    let modifiers = header.modifiers.as_slice();
    has(Modifier::Static, modifiers)
        || has(Modifier::Private, modifiers)
        || !wants_no_body(in_interface, header)
}
