// Session files: reading, which turns any bytes into tables or a refusal, and the sets that it ends with. Each field has a loop
// of its own: one over a closure that reads an entry would take the entry's contract and definition as parameters, and be longer than the loop.
#![tactic(auto)]

mod bad;
pub mod ends;
mod map;
pub mod reading;
pub mod session;
pub mod sets;
