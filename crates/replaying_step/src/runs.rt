// The record of a run.
use tables::tables::{MOST_MACHINES, MOST_QUEUES};

// Each machine's state, and for each queue where its oldest message stands in its ring and how many messages wait; 0 beyond the counts.
#[derive(Clone, Copy, Debug, PartialEq, Eq)]
pub struct RunRecord {
    pub states: [u8; MOST_MACHINES as usize],
    pub heads: [usize; MOST_QUEUES as usize],
    pub lengths: [usize; MOST_QUEUES as usize],
}
