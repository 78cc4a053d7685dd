//! What a heap takes from a program: for each field its class and first value, for each class the one above it.

ghost use Rattle.std.specs.Prelude.{◌≡◌, IfOk, map};
ghost use Rattle.wy_heap.specs.Plan.{planned};
ghost use Rattle.wy_kernel.specs.View.{field_of};

use crate::first::first_of_type;
use std::alloc::{AllocError, Global};
use wy_kernel::types::{Class, Field};
use wy_value::Value;

/// A field by its class, with the value that it has first.
#[derive(Clone, Copy)]
pub struct FieldPlan {
    pub class: u32,
    pub is_static: bool,
    pub first: Value,
}

/// What stands for the plan of a field that there isn't.
pub const UNPLANNED: FieldPlan = FieldPlan {
    class: 0,
    is_static: false,
    first: Value::Null,
};

#[tactic(auto, unfolding(crate::specs::Plan::planned))]
fn plan_of(field: &Field) -> FieldPlan
    ensures { result ≡ planned (field_of field.now) }
{
    FieldPlan {
        class: field.class,
        is_static: field.is_static,
        first: first_of_type(&field.ty),
    }
}

pub fn field_plans(alloc: Global, fields: &[Field]) -> Result<Vec<FieldPlan>, AllocError>
    ensures { IfOk result (λ plans. plans.items ≡ map (λ f. planned (field_of f)) fields.now) }
{
    fields.iter().map(|field| plan_of(field)).collect(alloc)
}

pub fn classes_above(alloc: Global, classes: &[Class]) -> Result<Vec<u32>, AllocError>
    ensures { IfOk result (λ above. above.items ≡ map (λ c. c.above) classes.now) }
{
    classes.iter().map(|class| class.above).collect(alloc)
}
