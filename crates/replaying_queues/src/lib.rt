// Queues in lent memory: each in a ring of its own while a replay runs, from the ring's first byte on at its start; oldest first and then 0 at its end.
#![tactic(auto)]

pub mod follow;
pub mod laying;
pub mod ring;
pub mod settle;
pub mod words;

// A queue holds so many messages at most, each in a byte of its ring.
pub const QUEUE_ROOM: usize = 1024;
