// Where judging stands among the items of a session, and the item after it.
#![tactic(auto)]

pub mod cursor;
pub mod next;
