// What is small of a session's tables. It goes by value; the large ones, which hold what is counted here, are lent beside it.
use crate::tables::{Machines, Queues};

#[derive(Clone, Copy, Debug, PartialEq, Eq)]
pub struct Head {
    pub machines: Machines,
    pub queues: Queues,
    // how many there are: transitions, states of the pool, bad entries
    pub transitions: u8,
    pub states: u8,
    pub bad: u8,
}
