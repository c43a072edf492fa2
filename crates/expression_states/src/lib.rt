// The states of an expression's diagram, found one after the other: the start, and the sets of occurrences that words end on.
#![tactic(auto)]

pub mod grow;
pub mod next;
