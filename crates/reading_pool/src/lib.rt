// Reading the pool, field 4 of a session file. Each field has a loop
// of its own: one over a closure that reads an entry would take the entry's contract and definition as parameters, and be longer than the loop.
#![tactic(auto)]

pub mod pool;
