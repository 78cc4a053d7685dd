//! The streams of System: what a call of `print` or `println` writes, and the next byte of the input.

ghost use Rattle.std.specs.Prelude.{◌≡◌, [], ◌∷◌, if◌then◌else◌, map, option_map};
ghost use Rattle.wy_elab_expr.specs.Elaboration.{byte_read, called_on_stream, is_print, is_printed, print_call, print_operand, printed, printed_type};
ghost use Rattle.wy_elab_expr.specs.Members.{some_void};
ghost use Rattle.wy_elab_expr.specs.Views.{GetsTo, GivesAlways, meaning_of, printed_of, stream_of};

use crate::arguments::some_void;
use crate::bring::{brought, primitive, type_of};
use crate::build;
use crate::kinds::is_void;
use crate::meaning::{Meaning, of_form};
use crate::refusal::refused;
use crate::texts::Texts;
use std::alloc::Global;
use wy_constant::{Rule, TypeError};
use wy_kernel::form::{Const, Expr, LibOp};
use wy_kernel::operator::Primitive;
use wy_kernel::types::{Base, Ty};

/// `System.in` and `System.out`
#[derive(Clone, Copy)]
pub enum Stream {
    Input,
    Output,
}

/// A value that is printed.
#[derive(Drop)]
pub struct Printed {
    pub form: Expr,
    pub ty: Ty,
}

// byte and short are printed as int, other values in their own type.
fn printed_type(ty: Ty) -> Ty
    ensures { result ≡ printed_type ty }
{
    match ty {
        Ty::Of {
            base: Base::Primitive(Primitive::Byte),
            brackets: 0,
        } => primitive(Primitive::Int),
        Ty::Of {
            base: Base::Primitive(Primitive::Short),
            brackets: 0,
        } => primitive(Primitive::Int),
        _ => ty,
    }
}

// A literal null and chars aren't offered.
fn is_printed(ty: Ty) -> bool
    ensures { result ≡ is_printed ty }
{
    match ty {
        Ty::Null => false,
        Ty::Of {
            base: Base::Primitive(Primitive::Char),
            brackets: 1,
        } => false,
        _ => true,
    }
}

#[tactic(auto, unfolding(crate::specs::Elaboration::printed))]
fn brought_to_print(
    alloc: Global,
    texts: &mut Texts,
    m: Meaning,
    token: u32,
) -> Result<Printed, TypeError>
    ensures { GetsTo printed_of result texts.new (printed (meaning_of m) token texts.old) }
{
    let from = type_of(&m);
    if is_void(from) {
        return Err(refused(Rule::BadOperand, token));
    }
    if is_printed(from) {
        let ty = printed_type(from);
        let form = brought(alloc, texts, ty, m)?;
        Ok(Printed { form, ty })
    } else {
        Err(refused(Rule::NotOffered, token))
    }
}

/// Whether a name is `print` or `println`.
pub fn is_print(name: &str) -> bool
    ensures { result ≡ is_print name.now }
{
    name == "print" || name == "println"
}

#[tactic(auto, unfolding(crate::specs::Elaboration::print_operand))]
fn print_nothing(name: &str, token: u32) -> Result<Option<Printed>, TypeError>
    ensures { GivesAlways (λ p. option_map printed_of p) result (print_operand name.now [] token) }
{
    if name == "println" {
        Ok(None)
    } else if is_print(name) {
        Err(refused(Rule::NoMethod, token))
    } else {
        Err(refused(Rule::NotOffered, token))
    }
}

#[tactic(auto, unfolding(crate::specs::Elaboration::print_operand))]
fn print_one(
    alloc: Global,
    texts: &mut Texts,
    name: &str,
    m: Meaning,
    token: u32,
) -> Result<Option<Printed>, TypeError>
    ensures { GetsTo (λ p. option_map printed_of p) result texts.new
        (print_operand name.now (meaning_of m ∷ []) token texts.old) }
{
    if is_print(name) {
        let p = brought_to_print(alloc, texts, m, token)?;
        return Ok(Some(p));
    }
    if is_void(type_of(&m)) {
        Err(refused(Rule::BadOperand, token))
    } else {
        Err(refused(Rule::NotOffered, token))
    }
}

// The rule that too many arguments break.
fn too_many(name: &str, args: &[Meaning]) -> Rule
    ensures { result ≡ (if some_void (map meaning_of args.now) then Rule.BadOperand
        else (if is_print name.now then Rule.NoMethod else Rule.NotOffered)) }
{
    if some_void(args) {
        Rule::BadOperand
    } else if is_print(name) {
        Rule::NoMethod
    } else {
        Rule::NotOffered
    }
}

/// What a call of `print` or `println` writes: a value, or nothing but the end of a line.
#[tactic(auto, using(crate::proofs::Operands::of_many))]
pub fn print_operand(
    alloc: Global,
    texts: &mut Texts,
    name: &str,
    mut args: Vec<Meaning>,
    token: u32,
) -> Result<Option<Printed>, TypeError>
    ensures { GetsTo (λ p. option_map printed_of p) result texts.new
        (print_operand name.now (map meaning_of args.items) token texts.old) }
{
    if args.len() > 1 {
        return Err(refused(too_many(name, args.as_slice()), token));
    }
    match args.pop() {
        None => print_nothing(name, token),
        Some(m) => print_one(alloc, texts, name, m, token),
    }
}

// A call of `print` or `println` has no value.
fn print_call(
    alloc: Global,
    texts: &mut Texts,
    name: &str,
    args: Vec<Meaning>,
    token: u32,
) -> Result<Meaning, TypeError>
    ensures { GetsTo meaning_of result texts.new
        (print_call name.now (map meaning_of args.items) token texts.old) }
{
    drop(print_operand(alloc, texts, name, args, token)?);
    Ok(of_form(alloc, build::constant(Const::Null), Ty::Void)?)
}

// The next byte of the input.
fn byte_read(alloc: Global, name: &str, args: &[Meaning], token: u32) -> Result<Meaning, TypeError>
    ensures { GivesAlways meaning_of result (byte_read name.now (map meaning_of args.now) token) }
{
    if name != "read" {
        return Err(refused(Rule::NotOffered, token));
    }
    if args.is_empty() {
        let form = build::library(LibOp::ReadByte, Vec::new(alloc), token);
        Ok(of_form(alloc, form, primitive(Primitive::Int))?)
    } else {
        Err(refused(Rule::NoMethod, token))
    }
}

/// A call on a stream.
pub fn called_on_stream(
    alloc: Global,
    texts: &mut Texts,
    stream: Stream,
    name: &str,
    args: Vec<Meaning>,
    token: u32,
) -> Result<Meaning, TypeError>
    ensures { GetsTo meaning_of result texts.new
        (called_on_stream (stream_of stream) name.now (map meaning_of args.items) token texts.old) }
{
    match stream {
        Stream::Input => {
            if some_void(args.as_slice()) {
                Err(refused(Rule::BadOperand, token))
            } else {
                byte_read(alloc, name, args.as_slice(), token)
            }
        }
        Stream::Output => print_call(alloc, texts, name, args, token),
    }
}
