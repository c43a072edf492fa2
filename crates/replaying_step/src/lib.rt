// One step of a replay on the run's record: whether its configuration is inside, a transition taken, the form of the end.
#![tactic(auto)]

pub mod inside;
pub mod runs;
pub mod settling;
pub mod taking;
