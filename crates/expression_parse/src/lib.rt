// The parse of an expression, with what may begin, end and follow in its tree; the tree itself is not built.
#![tactic(auto)]

pub mod cycle;
pub mod parts;
