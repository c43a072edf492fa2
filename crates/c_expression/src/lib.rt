// What C is told of an expression: its reply, and its pool as bytes.
#![tactic(auto)]

pub mod drawn;
