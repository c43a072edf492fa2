// The form of the end: the messages of each ring at its front, oldest first, and then 0.
ghost use Rattle.std.specs.Prelude.{◌≡◌};
ghost use Rattle.std.proofs.lemmas.List.Edits.{sets};
ghost use Rattle.replaying_queues.specs.Ring.{waiting, rings};
ghost use Rattle.replaying_queues.specs.Laid.{laid, memory_after};
ghost use Rattle.replaying_queues.specs.Lent.{Stands, Rings};

use crate::QUEUE_ROOM;
use crate::ring::QueueRing;
use numbers::put::put_word;
use tables::tables::MOST_QUEUES;

impl QueueRing {
    // Through a copy of what waits in it.
    fn settle(self, memory: &mut [u8])
        requires { Stands memory.old self }
        ensures { memory.new ≡ sets memory.old self.base (laid (waiting memory.old self.base self.head self.count)) }
    {
        let mut ring = [0u8; QUEUE_ROOM];
        for i in 0..self.count {
            ring[i] = memory[self.base + (self.head + i) % QUEUE_ROOM];
        }
        put_word(memory, self.base, &ring);
    }
}

// So many rings.
pub fn settle_queues(
    memory: &mut [u8],
    heads: &[usize; MOST_QUEUES as usize],
    lengths: &[usize; MOST_QUEUES as usize],
    count: usize,
)
    requires { Rings memory.old heads.now lengths.now count }
    ensures { memory.new ≡ memory_after (rings memory.old heads.now lengths.now count) memory.old }
{
    for q in 0..count {
        QueueRing::of(q, heads, lengths).settle(memory);
    }
}
