// Messages followed along the arcs that all diagrams share, each read where it stands: in the table of transitions, in the memory of a queue, or in
// contents that lie in parts (those after a step, those that wait at the start).
#![tactic(auto)]

pub mod after;
pub mod messages;
mod part;
pub mod rows;
pub mod starting;
