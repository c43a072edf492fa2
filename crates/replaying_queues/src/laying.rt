// The form of the start: what waits in each queue lies at the front of its ring.
ghost use Rattle.std.specs.Prelude.{◌≡◌};
ghost use Rattle.replaying_queues.specs.Laying.{Layable, Lays};

use crate::QUEUE_ROOM;
use crate::ring::QueueRing;
use numbers::number::wide;
use tables::tables::{MOST_QUEUES, MOST_STARTING, Queues};

// How many messages wait in each ring.
pub fn starting_lengths(queues: Queues) -> [usize; MOST_QUEUES as usize]
    ensures { result ≡ queues.lengths }
{
    queues.lengths.map(wide)
}

// The bytes of a ring after its messages stay: no step reads them before it has written them.
pub fn lay_starting(memory: &mut [u8], queues: Queues)
    requires { Layable queues memory.old }
    ensures { Lays queues.lengths queues.contents queues.count memory.old memory.new }
{
    let lengths = queues.lengths;
    let contents = queues.contents;
    for q in 0..wide(queues.count) {
        let at = q * MOST_STARTING as usize;
        let n = wide(lengths[q]);
        let ring = QueueRing {
            base: q * QUEUE_ROOM,
            head: 0,
            count: 0,
        };
        ring.put(memory, &contents[at..at + n]);
    }
}
