// A queue in lent memory while a replay runs: a ring of `QUEUE_ROOM` bytes.
ghost use Rattle.std.specs.Prelude.{◌≡◌, ◌<◌};
ghost use Rattle.tables.specs.Limits.{most_queues};
ghost use Rattle.replaying_queues.specs.Lent.{ring_of};

use crate::QUEUE_ROOM;
use tables::tables::MOST_QUEUES;

// The ring begins at base in the memory. Its oldest message stands at its place head, and so many messages wait.
#[derive(Clone, Copy, Debug, PartialEq, Eq)]
pub struct QueueRing {
    pub base: usize,
    pub head: usize,
    pub count: usize,
}

impl QueueRing {
    // The ring of a queue, each queue's behind that of the one before it.
    pub fn of(
        q: usize,
        heads: &[usize; MOST_QUEUES as usize],
        lengths: &[usize; MOST_QUEUES as usize],
    ) -> QueueRing
        requires { q < most_queues }
        ensures { result ≡ ring_of q heads.now lengths.now }
    {
        QueueRing {
            base: q * QUEUE_ROOM,
            head: heads[q],
            count: lengths[q],
        }
    }
}
