// Every field of a session file, put into a buffer from a place on. What falls past the buffer's end is dropped, and the place goes on. The tables may hold
// anything: the bounds in the contracts are two bytes for each number that the largest counts ask for.
#![tactic(auto)]

pub mod file;
mod moves;
mod pool;
mod sets;
mod starting;
mod writer;
