//! The types that binary operators take and give (JLS 15.17 to 15.24).

ghost use Rattle.std.specs.Prelude.{◌≡◌, option_map};
ghost use Rattle.wy_table.specs.ClassTable.{table_of};
ghost use Rattle.wy_value.specs.Operator.{is_comparison, is_equality, is_shift};
ghost use Rattle.wy_elab_expr.specs.Operators.{boolean_type, booleans, both_numbers, is_bitwise, joins, of_number, of_one_type, of_references, of_shift, number_type, operand_types, or_else};
ghost use Rattle.wy_elab_expr.specs.Views.{Judged, operands_of};

use crate::allowed::can_cast;
use crate::bring::primitive;
use crate::kinds::{both_numbers, is_boolean, is_nullable, is_text, is_void, number_type};
use wy_kernel::operator::{BinOp, Primitive};
use wy_kernel::types::Ty;
use wy_table::table::ClassTable;

/// The types that the operands are brought to, and that of the result.
#[derive(Clone, Copy)]
pub struct OperandTypes {
    pub left: Ty,
    pub right: Ty,
    pub outcome: Ty,
}

fn of_one_type(outcome: Ty, p: Option<Primitive>) -> Option<OperandTypes>
    ensures { option_map operands_of result ≡ of_one_type outcome p }
{
    match p {
        Some(p) => Some(OperandTypes {
            left: primitive(p),
            right: primitive(p),
            outcome,
        }),
        None => None,
    }
}

fn of_number(p: Option<Primitive>) -> Option<OperandTypes>
    ensures { option_map operands_of result ≡ of_number p }
{
    match p {
        Some(p) => of_one_type(primitive(p), Some(p)),
        None => None,
    }
}

// Each operand by itself, and the result as the left one.
fn of_shift(p: Option<Primitive>, q: Option<Primitive>) -> Option<OperandTypes>
    ensures { option_map operands_of result ≡ of_shift p q }
{
    match (p, q) {
        (Some(p), Some(q)) => Some(OperandTypes {
            left: primitive(p),
            right: primitive(q),
            outcome: primitive(p),
        }),
        (_, _) => None,
    }
}

fn booleans(a: Ty, b: Ty) -> Option<Primitive>
    ensures { result ≡ booleans a b }
{
    if is_boolean(a) && is_boolean(b) {
        Some(Primitive::Bool)
    } else {
        None
    }
}

// References are compared where a cast between them is allowed.
fn of_references(table: &ClassTable, a: Ty, b: Ty) -> Option<OperandTypes>
    ensures { Judged (table_of table.now) (λ j.
        option_map operands_of result ≡ of_references j (table_of table.now) a b) }
{
    if is_nullable(a) && is_nullable(b) && can_cast(table, a, b) {
        Some(OperandTypes {
            left: a,
            right: b,
            outcome: primitive(Primitive::Bool),
        })
    } else {
        None
    }
}

fn is_shift(op: BinOp) -> bool
    ensures { result ≡ is_shift op }
{
    match op {
        BinOp::Shl | BinOp::Shr | BinOp::Ushr => true,
        _ => false,
    }
}

fn is_equality(op: BinOp) -> bool
    ensures { result ≡ is_equality op }
{
    match op {
        BinOp::Eq | BinOp::Ne => true,
        _ => false,
    }
}

fn is_comparison(op: BinOp) -> bool
    ensures { result ≡ is_comparison op }
{
    match op {
        BinOp::Lt | BinOp::Gt | BinOp::Le | BinOp::Ge | BinOp::Eq | BinOp::Ne => true,
        _ => false,
    }
}

fn is_bitwise(op: BinOp) -> bool
    ensures { result ≡ is_bitwise op }
{
    match op {
        BinOp::And | BinOp::Or | BinOp::Xor => true,
        _ => false,
    }
}

fn of_equality(table: &ClassTable, a: Ty, b: Ty) -> Option<OperandTypes>
    ensures { Judged (table_of table.now) (λ j. option_map operands_of result
        ≡ or_else (of_one_type boolean_type (both_numbers a b)) (or_else
        (of_one_type boolean_type (booleans a b)) (of_references j (table_of table.now) a b))) }
{
    let outcome = primitive(Primitive::Bool);
    if let Some(p) = both_numbers(a, b) {
        return of_one_type(outcome, Some(p));
    }
    match booleans(a, b) {
        Some(p) => of_one_type(outcome, Some(p)),
        None => of_references(table, a, b),
    }
}

fn of_bits(a: Ty, b: Ty) -> Option<OperandTypes>
    ensures { option_map operands_of result ≡ or_else (of_number (both_numbers a b))
        (of_one_type boolean_type (booleans a b)) }
{
    match both_numbers(a, b) {
        Some(p) => of_number(Some(p)),
        None => of_one_type(primitive(Primitive::Bool), booleans(a, b)),
    }
}

/// The types of `a op b`, where there are any.
#[tactic(auto, unfolding(crate::specs::Operators::operand_types))]
pub fn operand_types(table: &ClassTable, op: BinOp, a: Ty, b: Ty) -> Option<OperandTypes>
    ensures { Judged (table_of table.now) (λ j.
        option_map operands_of result ≡ operand_types j (table_of table.now) op a b) }
{
    if is_shift(op) {
        of_shift(number_type(a), number_type(b))
    } else if is_equality(op) {
        of_equality(table, a, b)
    } else if is_comparison(op) {
        of_one_type(primitive(Primitive::Bool), both_numbers(a, b))
    } else if is_bitwise(op) {
        of_bits(a, b)
    } else {
        of_number(both_numbers(a, b))
    }
}

/// Whether `+` joins texts: one side is a text, and none is void.
pub fn joins(op: BinOp, a: Ty, b: Ty) -> bool
    ensures { result ≡ joins op a b }
{
    match op {
        BinOp::Add => !is_void(a) && !is_void(b) && (is_text(a) || is_text(b)),
        _ => false,
    }
}
