// Comparing tables that were read with tables in parts.
#![tactic(auto)]

pub mod same;
