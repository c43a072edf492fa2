// The numbers of an input: groups of seven bits, read by a reader that keeps its place, each in its range or refused with a place. And
// bytes put into a buffer.
#![tactic(auto)]

pub mod number;
pub mod put;
pub mod reader;
pub mod refusal;
