//! Where the parts of a program stand in its text, and that no two of the forms `&&`, `||` and `?:` share a site.
//! The functions do nothing: their contracts are the laws.
#![tactic(auto)]

mod choices;
mod sites;

pub use choices::no_two_choices_share_a_site;
pub use sites::sites_are_tokens;
