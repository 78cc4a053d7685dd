//! What a run of a program is: its records, its output, its end, and what every value in it comes from.
//! Definitions alone: a recursion on the kernel forms over the steps of a run (JLS 12, 14, 15).
#![tactic(auto)]
