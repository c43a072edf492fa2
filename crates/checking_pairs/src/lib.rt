// The pairs of a walk as numbers: what they are, where a letter leads from one, and which are marked in the lent tables.
#![tactic(auto)]

pub mod marks;
pub mod moves;
pub mod over;
pub mod pairs;
