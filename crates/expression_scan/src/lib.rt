// A text looked at byte by byte, with no tree of it: the numbers in it, and the limits on expressions.
#![tactic(auto)]

pub mod digits;
pub mod limits;
