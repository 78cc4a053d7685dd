//! What is declared twice in its scope: classes, fields, methods, parameters and modifiers (JLS 7.6, 8.3, 8.4.1, 8.4.2, 9.7.5).
//! Locals and labels are in bodies, of which nothing is said here.

ghost use Rattle.std.specs.Prelude.{◌≡◌, ◌↔◌, IfOk, IsTrue, map};
ghost use Rattle.std.specs.List.{Contains};
ghost use Rattle.wy_members.specs.Broken.{reserved_names};
ghost use Rattle.wy_members.specs.Least.{Among, IsLeast};
ghost use Rattle.wy_members.specs.Within.{RepeatsInClass, RepeatsInHeader, RepeatsInMember};
ghost use Rattle.wy_syntax.specs.View.{class_of, header_of, member_of};

use crate::broken::again::least_again;
use crate::broken::least::{lesser, token_where};
use std::alloc::{AllocError, Global};
use wy_syntax::declaration::{ClassSyntax, Header, Member};

pub fn least_in_classes(alloc: Global, classes: &[&ClassSyntax]) -> Result<Option<u32>, AllocError>
    ensures { IfOk result (IsLeast
        (Among (map (λ k. class_of k.now) classes.now) (λ i k. RepeatsInClass k))) }
{
    let mut least = None;
    for class in classes {
        let in_class = least_in_class(alloc, class)?;
        least = lesser(least, in_class);
    }
    Ok(least)
}

fn least_in_class(alloc: Global, class: &ClassSyntax) -> Result<Option<u32>, AllocError>
    ensures { IfOk result (IsLeast (RepeatsInClass (class_of class.now))) }
{
    let name = token_where(is_reserved(class.name.name.as_str()), class.name.token);
    let modifiers = least_again(alloc, &class.modifiers)?;
    let members = least_in_members(alloc, &class.members)?;
    Ok(lesser(name, lesser(modifiers, members)))
}

// Whether no class of the text may have this name, since a program may use static members of such a class.
fn is_reserved(name: &str) -> bool
    ensures { IsTrue result ↔ Contains reserved_names name.now }
{
    name == "System" || name == "Integer" || name == "Long" || name == "Math"
}

fn least_in_members(alloc: Global, members: &[Member]) -> Result<Option<u32>, AllocError>
    ensures { IfOk result
        (IsLeast (Among (map member_of members.now) (λ i m. RepeatsInMember m))) }
{
    let mut least = None;
    for member in members {
        let in_member = least_in_member(alloc, member)?;
        least = lesser(least, in_member);
    }
    Ok(least)
}

fn least_in_member(alloc: Global, member: &Member) -> Result<Option<u32>, AllocError>
    ensures { IfOk result (IsLeast (RepeatsInMember (member_of member.now))) }
{
    match member {
        Member::Fields { modifiers, .. } => least_again(alloc, modifiers),
        Member::Method { header, .. } => least_in_header(alloc, header),
        Member::Constructor { header, .. } => least_in_header(alloc, header),
        Member::Nothing => Ok(None),
        Member::Initializer { .. } => Ok(None),
        Member::Wrong => Ok(None),
    }
}

fn least_in_header(alloc: Global, header: &Header) -> Result<Option<u32>, AllocError>
    ensures { IfOk result (IsLeast (RepeatsInHeader (header_of header.now))) }
{
    let modifiers = least_again(alloc, &header.modifiers)?;
    let params = least_again(alloc, &header.params)?;
    Ok(lesser(modifiers, params))
}
