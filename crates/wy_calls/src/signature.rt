//! Which methods a call may run, by their signatures (JLS 8.4.2, 15.12.4.4).

ghost use Rattle.std.specs.Prelude.{◌≡◌};
ghost use Rattle.wy_kernel.specs.Program.{is_instance, runs_as, same_types, same_units};
ghost use Rattle.wy_kernel.specs.View.{method_of};

use wy_kernel::code::type_code;
use wy_kernel::types::{Method, MethodForm, Ty};

/// Whether a method is one of a class that a call of another method runs there.
#[tactic(auto, unfolding(wy_kernel::specs::Program::runs_as))]
pub fn runs_as(class: u32, called: &Method, method: &Method) -> bool
    ensures { result ≡ runs_as class (method_of called.now) (method_of method.now) }
{
    method.class == class
        && is_instance(method.form)
        && !method.is_private
        && same_name(&called.name, &method.name)
        && same_types(&called.params, &method.params)
}

fn same_name(left: &str, right: &str) -> bool
    ensures { result ≡ same_units left.now right.now }
{
    left == right
}

#[tactic(auto, unfolding(wy_kernel::specs::Program::is_instance))]
fn is_instance(form: MethodForm) -> bool
    ensures { result ≡ is_instance form }
{
    match form {
        MethodForm::Instance => true,
        MethodForm::Static => false,
        MethodForm::Constructor => false,
        MethodForm::Fields => false,
    }
}

#[tactic(auto, unfolding(wy_kernel::specs::Program::same_types))]
fn same_types(left: &[Ty], right: &[Ty]) -> bool
    ensures { result ≡ same_types left.now right.now }
{
    let mut left = left;
    let mut right = right;
    while let Some((a, after_a)) = left.split_first() {
        let Some((b, after_b)) = right.split_first() else {
            return false;
        };
        if type_code(*a) != type_code(*b) {
            return false;
        }
        left = after_a;
        right = after_b;
    }
    right.is_empty()
}
