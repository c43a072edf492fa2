// The verdict on a session, which checking gives, programs print and C is told.
#![tactic(auto)]

pub mod verdict;
