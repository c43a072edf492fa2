// The messages of a queue.
ghost use Rattle.tables.specs.Queues.{Spans};

use crate::tables::MOST_QUEUES;
use numbers::number::{entry, wide};

// The messages of a queue: from lo on and below hi.
#[derive(Clone, Copy, Debug, PartialEq, Eq)]
pub struct Span {
    pub lo: usize,
    pub hi: usize,
}

// The messages of one queue.
pub fn messages_of(counts: [u8; MOST_QUEUES as usize], queue: u8) -> Span
    ensures { Spans counts queue result }
{
    let mut lo: usize = 0;
    for i in 0..queue {
        lo += wide(entry(&counts, i as usize));
    }
    let hi = lo + wide(entry(&counts, queue as usize));
    Span { lo, hi }
}
