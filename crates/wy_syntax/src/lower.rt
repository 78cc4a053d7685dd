//! From trees to abstract syntax.

pub mod act;
pub mod expression;
pub mod head;
pub mod made;
pub mod statement;
pub mod variable;
