// Sets of occurrences, and tables with an entry for each occurrence.
#![tactic(auto)]

pub mod sets;
