// The tables of a file one after the other in lent bytes: putting them there, and writing a file from such bytes.
#![tactic(auto)]

pub mod places;
pub mod put;
mod taken;
pub mod write;
