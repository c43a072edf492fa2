// The items of a session in their order, from any of them on: the first that fails decides.
#![tactic(auto)]

mod entries;
pub mod session;
mod steps;
