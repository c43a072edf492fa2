// What waits at the start, queue after queue.
ghost use Rattle.std.specs.Prelude.{◌≤◌};
ghost use Rattle.tables.specs.Limits.{most_pool};
ghost use Rattle.tables.specs.Lookup.{ArcsSmall};
ghost use Rattle.tables.specs.Starting.{starting_of};
ghost use Rattle.tables.specs.Valid.{QueuesValid};
ghost use Rattle.theory_model.specs.Diagram.{word};
ghost use Rattle.following.specs.Follow.{FollowsTo};

use crate::messages::Ring;
use crate::part::follow_part;
use numbers::number::wide;
use tables::kinds::Reached;
use tables::tables::{MOST_STARTING, Queues};

// A queue's messages at the start lie in so many bytes of their table.
const STARTING_ROOM: usize = MOST_STARTING as usize;

// Where all that waits at the start leads. Each queue's messages are a ring of their table that is not gone round.
pub fn follow_starting(arcs: &[u8], from: Reached, q: Queues) -> Reached
    requires arcs_small { ArcsSmall arcs.now }
    requires from_le_most_pool { from.0 ≤ most_pool }
    requires queues_valid { QueuesValid q }
    ensures { FollowsTo arcs.now from.0 (word (starting_of q)) result.0 }
{
    let lengths = q.lengths;
    let contents = q.contents;
    let mut at = from;
    for i in 0..wide(q.count) {
        let waiting = Ring::<STARTING_ROOM> {
            table: &contents,
            base: i * STARTING_ROOM,
            head: 0,
            count: wide(lengths[i]),
        };
        at = follow_part(arcs, at, waiting).to;
    }
    at
}
