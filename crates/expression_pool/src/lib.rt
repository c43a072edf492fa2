// The pool of an expression's diagram, filled from its states.
#![tactic(auto)]

pub mod fill;
