//! A variable of a body, and a text that its forms hold (JLS 4.12).

use wy_kernel::form::Const;
use wy_kernel::types::Ty;

/// A parameter or a local.
#[derive(Drop)]
pub struct Variable {
    pub name: String,
    /// Its number among the locals of the body.
    pub number: u32,
    pub ty: Ty,
    /// It is final and has an initializer.
    pub is_fixed: bool,
    /// Its value, where it is a constant variable.
    pub constant: Option<Const>,
}

/// A text that forms hold, and the least first token of such a form.
#[derive(Drop)]
pub struct FixedText {
    pub units: Vec<u16>,
    pub token: u32,
}
