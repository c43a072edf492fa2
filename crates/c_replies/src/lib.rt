// What C is told of a reply: its kind and the numbers that go with it, and the record of a run as numbers.
#![tactic(auto)]

pub mod replays;
pub mod told;
