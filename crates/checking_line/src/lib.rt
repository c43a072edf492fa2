// The line that the program prints, written into a buffer.
#![tactic(auto)]

mod put;
pub mod verdict;
