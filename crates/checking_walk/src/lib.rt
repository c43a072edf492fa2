// The walk over pairs in lent tables: how many different pairs there are, or the first that fails and the contents that lead to it.
// Other crates call `judge`.
#![tactic(auto)]

mod contents;
mod edges;
pub mod judge;
mod search;
