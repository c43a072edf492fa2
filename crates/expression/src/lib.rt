// From a text to the pool and root of its diagram.
#![tactic(auto)]

pub mod draw;
