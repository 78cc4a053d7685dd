//! From tokens to a tree (JLS 18, restated): every text of the grammar has its tree, and no other.
#![tactic(auto)]

pub mod condition;
pub mod expression;
pub mod laws;
pub mod look;
pub mod parse;
pub mod part;
pub mod reach;
pub mod read;
pub mod row;
pub mod rule;
pub mod stop;
pub mod symbol;
