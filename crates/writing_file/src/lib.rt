// Writing: from tables to the bytes of a session file, or to a refusal.
#![tactic(auto)]

pub mod write;
