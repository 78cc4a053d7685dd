//! The method that a run calls (JLS 12.1.4). Where there are several, it is the first in the text.

ghost use Rattle.std.specs.Prelude.{◌≡◌, ◌≤◌, length, map};
ghost use Rattle.std.specs.List.{position_from};
ghost use Rattle.wy_elab_stmt.specs.MainMethod.{is_one_text_array, is_string, is_text_array, is_written_main, main_among, main_at, main_declared, written_main_token};
ghost use Rattle.wy_elab_stmt.specs.Program.{main_of, stands_at};
ghost use Rattle.wy_table.specs.ClassTable.{table_of};
ghost use Rattle.wy_kernel.specs.View.{method_of};
ghost use Rattle.wy_syntax.specs.View.{base_seen, declaration_of, header_of, member_of, parameter_of};
ghost use Rattle.wy_tree.specs.Tokens.{token_limit};

use wy_kernel::types::Method;
use wy_members::has_modifier;
use wy_syntax::declaration::{Declaration, Header, Member, Modifier, Outcome, Parameter};
use wy_syntax::name::WrittenBase;
use wy_table::table::ClassTable;

fn is_string(base: &WrittenBase) -> bool
    ensures { result ≡ is_string (base_seen base.now) }
{
    match base {
        WrittenBase::Primitive(_) => false,
        WrittenBase::Class(name) => name.as_str() == "String",
    }
}

fn is_text_array(p: &Parameter) -> bool
    ensures { result ≡ is_text_array (parameter_of p.now) }
{
    is_string(&p.ty.base) && u64::from(p.ty.brackets) + u64::from(p.brackets) == 1
}

fn is_one_text_array(params: &[Parameter]) -> bool
    ensures { result ≡ is_one_text_array (map parameter_of params.now) }
{
    match params {
        [p] => is_text_array(p),
        _ => false,
    }
}

/// `public static void main(String[])`
fn is_main(header: &Header) -> bool
    ensures { result ≡ is_written_main (header_of header.now) }
{
    let modifiers = header.modifiers.as_slice();
    header.name.name.as_str() == "main"
        && has_modifier(Modifier::Public, modifiers)
        && has_modifier(Modifier::Static, modifiers)
        && is_one_text_array(header.params.as_slice())
}

fn main_at(member: &Member) -> Option<u32>
    ensures { result ≡ main_at (member_of member.now) }
{
    match member {
        Member::Method {
            header,
            result: Outcome::Nothing,
            body: Some(_),
        } => {
            if is_main(header) {
                Some(header.name.token)
            } else {
                None
            }
        }
        _ => None,
    }
}

fn main_among(members: &[Member]) -> Option<u32>
    ensures { result ≡ main_among (map member_of members.now) }
{
    let mut left = members;
    while let [first, behind @ ..] = left {
        if let Some(token) = main_at(first) {
            return Some(token);
        }
        left = behind;
    }
    None
}

fn main_in(declaration: &Declaration) -> Option<u32>
    ensures { result ≡ main_declared (declaration_of declaration.now) }
{
    match declaration {
        Declaration::Class(class) => main_among(class.members.as_slice()),
        Declaration::Nothing => None,
        Declaration::Wrong => None,
    }
}

fn main_token(unit: &[Declaration]) -> Option<u32>
    ensures { result ≡ written_main_token (map declaration_of unit.now) }
{
    let mut left = unit;
    while let [first, behind @ ..] = left {
        if let Some(token) = main_in(first) {
            return Some(token);
        }
        left = behind;
    }
    None
}

fn stands_at(method: &Method, token: u32) -> bool
    ensures { result ≡ stands_at token (method_of method.now) }
{
    method.site == token
}

#[tactic(auto, using(wy_constant::proofs::Found::position_here, wy_constant::proofs::Found::position_further, wy_constant::proofs::Found::position_nowhere))]
fn method_at(table: &ClassTable, token: u32) -> Option<u32>
    ensures { result ≡ position_from (stands_at token) 0 (table_of table.now).methods }
{
    for k in 0..table.methods() {
        if stands_at(table.method(k), token) {
            return Some(k);
        }
    }
    None
}

/// The number of the first main in the text, if there is one.
pub fn main_of(table: &ClassTable, unit: &[Declaration]) -> Option<u32>
    requires { length unit.now ≤ token_limit }
    ensures { result ≡ main_of (table_of table.now) (map declaration_of unit.now) }
{
    match main_token(unit) {
        Some(token) => method_at(table, token),
        None => None,
    }
}
