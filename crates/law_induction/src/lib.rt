//! What every run keeps, once each of its steps keeps it: what a law has to say of the steps, or of the states between
//! them, and the induction over the forms of a program.
#![tactic(auto)]
