//! Tests across the crates that make a program of a text: its tokens, its tree, and the program that it is.
//! It holds nothing else. What is expected was worked out from the rules of docs/language.md, by hand. The rule that a text breaks, and
//! the byte at which it has no token, are rows of tools/checks.
#![tactic(auto)]

#[cfg(test)]
mod bodies;
#[cfg(test)]
mod expressions;
#[cfg(test)]
mod kinds;
#[cfg(test)]
mod listed;
#[cfg(test)]
mod members;
#[cfg(test)]
mod programs;
#[cfg(test)]
mod shown;
#[cfg(test)]
mod source;
#[cfg(test)]
mod tables;
#[cfg(test)]
mod tokens;
#[cfg(test)]
mod trees;
