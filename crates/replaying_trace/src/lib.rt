// A trace replayed against a session file: step by step on the run's record and the queue memory that the caller lends.
#![tactic(auto)]

pub mod progress;
pub mod run;
mod start;
mod step;
