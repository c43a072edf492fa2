// Control states: numbered by the machines' states, parted at a machine, moved by a transition, and the one that a run begins in.
#![tactic(auto)]

pub mod begin;
pub mod moves;
pub mod numbering;
pub mod parting;
