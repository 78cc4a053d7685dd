//! What a run has left to do, as tasks over the state of `wy_state`, and what each task does when its turn comes.
//! No call of the program is a call here: a body that begins is a task that is pushed. Nothing here opens the state.
#![tactic(auto)]

mod call;
mod class;
mod cond;
mod create;
mod expr;
mod handler;
mod loops;
pub mod machine;
mod operand;
mod operate;
mod parts;
mod place;
mod ready;
mod statement;
pub mod task;
mod text;
pub mod turn;
mod update;
