// One item of a session, judged by itself: the start, a step, a bad entry.
#![tactic(auto)]

pub mod begin;
mod cut;
pub mod far;
pub mod item;
pub mod scratch;
