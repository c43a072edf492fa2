// The verdict on a session file, and on tables that were read, over memory that the caller lends.
#![tactic(auto)]

pub mod check;
pub mod judging;
