// The tables of a session: the kinds of number, the limits, the layout of each table, lookup of roots, arcs and final marks.
#![tactic(auto)]

pub mod empty;
pub mod head;
pub mod kinds;
pub mod lookup;
pub mod spans;
pub mod starting;
pub mod tables;
pub mod view;
