//! Names that denote nothing: of classes, outside bodies, and of constructors (JLS 6.5.5, 8.8).
//! Names in bodies are looked up elsewhere.

ghost use Rattle.std.specs.Prelude.{◌≡◌, ◌↔◌, IsTrue, None, map, option_map};
ghost use Rattle.wy_members.specs.Declarations.{denoted};
ghost use Rattle.wy_members.specs.Least.{Among, IsLeast};
ghost use Rattle.wy_members.specs.Names.{unit_of};
ghost use Rattle.wy_members.specs.Within.{UnknownAbove, UnknownInClass, UnknownInHeader, UnknownInMember, UnknownNamed, UnknownNames, UnknownResult, UnknownType};
ghost use Rattle.wy_syntax.specs.View.{class_of, header_of, member_of, named_of, outcome_of, parameter_of, type_seen};

use crate::broken::least::{lesser, token_where};
use crate::names::Names;
use wy_syntax::declaration::{ClassSyntax, Header, Member, Outcome, Parameter};
use wy_syntax::name::{Named, WrittenBase, WrittenType};

pub fn least_in_classes(names: &Names, classes: &[&ClassSyntax]) -> Option<u32>
    ensures { IsLeast (Among (map (λ k. class_of k.now) classes.now) (λ i k.
        UnknownInClass (unit_of names.now) k)) result }
{
    let mut least = None;
    for class in classes {
        least = lesser(least, least_in_class(names, class));
    }
    least
}

fn least_in_class(names: &Names, class: &ClassSyntax) -> Option<u32>
    ensures { IsLeast (UnknownInClass (unit_of names.now) (class_of class.now)) result }
{
    let above = least_above(names, &class.above);
    let interfaces = least_in_names(names, &class.interfaces);
    let members = least_in_members(names, class.name.name.as_str(), &class.members);
    lesser(above, lesser(interfaces, members))
}

fn least_above(names: &Names, above: &Option<Named>) -> Option<u32>
    ensures { IsLeast (UnknownAbove (unit_of names.now) (option_map named_of above.now)) result }
{
    match above {
        Some(name) => least_in_name(names, name),
        None => None,
    }
}

fn least_in_names(names: &Names, written: &[Named]) -> Option<u32>
    ensures { IsLeast (UnknownNames (unit_of names.now) (map named_of written.now)) result }
{
    let mut least = None;
    for name in written {
        least = lesser(least, least_in_name(names, name));
    }
    least
}

fn least_in_name(names: &Names, name: &Named) -> Option<u32>
    ensures { IsLeast (UnknownNamed (unit_of names.now) (named_of name.now)) result }
{
    token_where(is_unknown(names, name.name.as_str()), name.token)
}

fn is_unknown(names: &Names, name: &str) -> bool
    ensures { IsTrue result ↔ (denoted (unit_of names.now) name.now ≡ None) }
{
    names.denoted(name).is_none()
}

fn least_in_members(names: &Names, class: &str, members: &[Member]) -> Option<u32>
    ensures { IsLeast (Among (map member_of members.now) (λ i m.
        UnknownInMember (unit_of names.now) class.now m)) result }
{
    let mut least = None;
    for member in members {
        least = lesser(least, least_in_member(names, class, member));
    }
    least
}

fn least_in_member(names: &Names, class: &str, member: &Member) -> Option<u32>
    ensures { IsLeast
        (UnknownInMember (unit_of names.now) class.now (member_of member.now)) result }
{
    match member {
        Member::Fields { ty, .. } => least_in_type(names, ty),
        Member::Method { header, result, .. } => {
            lesser(
                least_in_result(names, result),
                least_in_header(names, header),
            )
        }
        Member::Constructor { header, .. } => {
            let name = token_where(!is_name(&header.name, class), header.name.token);
            lesser(least_in_header(names, header), name)
        }
        Member::Nothing => None,
        Member::Initializer { .. } => None,
        Member::Wrong => None,
    }
}

fn is_name(name: &Named, other: &str) -> bool
    ensures { IsTrue result ↔ ((named_of name.now).name ≡ other.now) }
{
    name.name.as_str() == other
}

fn least_in_result(names: &Names, outcome: &Outcome) -> Option<u32>
    ensures { IsLeast (UnknownResult (unit_of names.now) (outcome_of outcome.now)) result }
{
    match outcome {
        Outcome::Value(ty) => least_in_type(names, ty),
        Outcome::Nothing => None,
    }
}

fn least_in_header(names: &Names, header: &Header) -> Option<u32>
    ensures { IsLeast (UnknownInHeader (unit_of names.now) (header_of header.now)) result }
{
    let params = least_in_parameters(names, &header.params);
    let throws = least_in_names(names, &header.throws);
    lesser(params, throws)
}

fn least_in_parameters(names: &Names, params: &[Parameter]) -> Option<u32>
    ensures { IsLeast
        (Among (map parameter_of params.now) (λ i p. UnknownType (unit_of names.now) p.ty)) result }
{
    let mut least = None;
    for param in params {
        least = lesser(least, least_in_type(names, &param.ty));
    }
    least
}

fn least_in_type(names: &Names, ty: &WrittenType) -> Option<u32>
    ensures { IsLeast (UnknownType (unit_of names.now) (type_seen ty.now)) result }
{
    match &ty.base {
        WrittenBase::Class(name) => token_where(is_unknown(names, name.as_str()), ty.token),
        WrittenBase::Primitive(_) => None,
    }
}
