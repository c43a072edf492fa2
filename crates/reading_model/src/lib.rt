// Reading the model, fields 1 to 3 of a session file: machines, queues and transitions. Each field has a loop
// of its own: one over a closure that reads an entry would take the entry's contract and definition as parameters, and be longer than the loop.
#![tactic(auto)]

pub mod fields;
mod machines;
mod queues;
mod starting;
mod transitions;
mod words;
