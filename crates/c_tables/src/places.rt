// Where each count and each table stands in the flat bytes. Each place is a constant, since the header gives C the same numbers (`SWARMBANNER_AT_..`).
use tables::kinds::DiagramState;
use tables::tables::{
    ENTRIES, MOST_CONTROLS, MOST_MACHINES, MOST_QUEUES, POOL_ARCS, ROWS, STARTING,
};

// Counts: machines, queues, messages in all, transitions, pool states, bad entries.
pub const MACHINES_PLACE: usize = 0;

pub const QUEUES_PLACE: usize = 1;

pub const SUM_PLACE: usize = 2;

pub const TRANSITIONS_PLACE: usize = 3;

pub const POOL_PLACE: usize = 4;

pub const BAD_PLACE: usize = 5;

pub const COUNTS: usize = 6;

// Tables: states and starting state of each machine; of each queue its messages, how many wait in it at the start, and these.
pub const STATES_PLACE: usize = COUNTS;

pub const STARTS_PLACE: usize = STATES_PLACE + MOST_MACHINES as usize;

pub const MESSAGES_PLACE: usize = STARTS_PLACE + MOST_MACHINES as usize;

pub const LENGTHS_PLACE: usize = MESSAGES_PLACE + MOST_QUEUES as usize;

pub const CONTENTS_PLACE: usize = LENGTHS_PLACE + MOST_QUEUES as usize;

// Transitions, final marks, arcs, roots and bad entries.
pub const ROWS_PLACE: usize = CONTENTS_PLACE + STARTING;

pub const FINALS_PLACE: usize = ROWS_PLACE + ROWS;

pub const ARCS_PLACE: usize = FINALS_PLACE + DiagramState::LIMIT;

pub const ROOTS_PLACE: usize = ARCS_PLACE + POOL_ARCS;

pub const ENTRIES_PLACE: usize = ROOTS_PLACE + MOST_CONTROLS;

// So many bytes in all.
pub const TABLES_LEAST: usize = ENTRIES_PLACE + ENTRIES;
