// The tables of a session, one for each field of the file, and the limits of document 01. Entries beyond the counts are 0. A table is an array of the
// most that it may hold, with a count beside it: memory is fixed. Rows are bytes, and no structs, since C lends the large tables as they lie
// (`swarmbanner_write`), and the definitions of specs/ read them so.
use crate::kinds::{ControlState, DiagramState, Message};

pub const MOST_MACHINES: u8 = 4;

pub const MOST_STATES: u8 = 16;

pub const MOST_CONTROLS: usize = ControlState::LIMIT;

pub const MOST_QUEUES: u8 = 4;

pub const MOST_MESSAGES: u8 = Message::LIMIT as u8;

// Messages that a queue starts with.
pub const MOST_STARTING: u8 = 8;

pub const MOST_TRANSITIONS: u8 = 128;

pub const MOST_WORD: u8 = 16;

pub const MOST_POOL: u8 = DiagramState::LIMIT as u8;

pub const MOST_BAD: u8 = 64;

// Bytes of a contents buffer. Contents in them are a ring that is not gone round.
pub const CONTENTS_LEAST: usize = 32768;

// A transition's row: the machine stands in its first entry, the others at these, and the word's messages from WORD on.
pub const FROM: usize = 1;

pub const TO: usize = 2;

pub const KIND: usize = 3;

pub const QUEUE: usize = 4;

pub const LENGTH: usize = 5;

pub const WORD: usize = 6;

pub const ROW: usize = WORD + MOST_WORD as usize;

pub const ROWS: usize = MOST_TRANSITIONS as usize * ROW;

// A state's arcs: an entry for each message, 0 or 1 plus the target.
pub const ARCS: usize = Message::LIMIT;

pub const POOL_ARCS: usize = DiagramState::LIMIT * ARCS;

// A bad entry: its control state, and its root after it.
pub const ENTRY: usize = 2;

pub const ENTRIES: usize = MOST_BAD as usize * ENTRY;

// What waits at the start: the messages of queue q from entry q * MOST_STARTING on.
pub const STARTING: usize = MOST_QUEUES as usize * MOST_STARTING as usize;

#[derive(Clone, Copy, Debug, Default, PartialEq, Eq)]
pub struct Machines {
    pub count: u8,
    pub product: usize,
    pub states: [u8; MOST_MACHINES as usize],
    pub starts: [u8; MOST_MACHINES as usize],
}

#[derive(Clone, Copy, Debug, Default, PartialEq, Eq)]
pub struct Queues {
    pub count: u8,
    pub sum: u8,
    pub messages: [u8; MOST_QUEUES as usize],
    // how many messages each queue starts with, and these
    pub lengths: [u8; MOST_QUEUES as usize],
    pub contents: [u8; STARTING],
}

#[derive(Clone, Copy, Debug, PartialEq, Eq)]
pub struct Transitions {
    pub count: u8,
    pub rows: [u8; ROWS],
}

#[derive(Clone, Copy, Debug, PartialEq, Eq)]
pub struct Pool {
    pub count: u8,
    pub finals: [u8; DiagramState::LIMIT],
    pub arcs: [u8; POOL_ARCS],
}

#[derive(Clone, Copy, Debug, PartialEq, Eq)]
pub struct Map {
    pub roots: [u8; MOST_CONTROLS],
}

#[derive(Clone, Copy, Debug, PartialEq, Eq)]
pub struct BadList {
    pub count: u8,
    pub rows: [u8; ENTRIES],
}

// Fields 1 to 3: what moves, and from where.
#[derive(Clone, Copy, Debug, PartialEq, Eq)]
pub struct ModelTables {
    pub machines: Machines,
    pub queues: Queues,
    pub transitions: Transitions,
}

// Fields 5 and 6: which diagrams stand for which control states.
#[derive(Clone, Copy, Debug, PartialEq, Eq)]
pub struct SetTables {
    pub map: Map,
    pub bad: BadList,
}

#[derive(Clone, Copy, Debug, PartialEq, Eq)]
pub struct Tables {
    pub machines: Machines,
    pub queues: Queues,
    pub transitions: Transitions,
    pub pool: Pool,
    pub map: Map,
    pub bad: BadList,
}
