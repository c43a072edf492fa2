// Where the messages that wait lead by the table of arcs, those of all rings, queue 0 first; and how many they are.
ghost use Rattle.std.specs.Prelude.{ℕ, ◌≤◌, get_or};
ghost use Rattle.theory_model.specs.Model.{Between};
ghost use Rattle.theory_model.specs.Diagram.{word};
ghost use Rattle.tables.specs.Limits.{most_messages, most_pool, most_queues};
ghost use Rattle.tables.specs.Lookup.{ArcsSmall};
ghost use Rattle.replaying_queues.specs.Ring.{rings};
ghost use Rattle.theory_replay.specs.Rules.{room};
ghost use Rattle.replaying_queues.specs.Lent.{Rings};
ghost use Rattle.replaying_queues.specs.Led.{Leads, Waits};

use crate::QUEUE_ROOM;
use following::messages::{Lost, Ring, follow};
use following::rows::{row_of, state_of};
use tables::kinds::{DiagramState, Reached};
use tables::tables::MOST_QUEUES;

// How many messages wait in the first so many queues.
pub fn waiting_in(lengths: &[usize; MOST_QUEUES as usize], count: usize) -> usize
    requires count_le_most_queues { count ≤ most_queues }
    requires by_index { (q : ℕ) → get_or lengths.now q 0 ≤ room }
    ensures { Waits lengths.now count result }
{
    lengths[..count].iter().sum()
}

// Where what waits in so many rings leads. Between rings, too, a state is its row. The messages before a queue are counted only where the
// way is lost in it.
pub fn follow_rings(
    arcs: &[u8],
    from: Reached,
    memory: &[u8],
    heads: &[usize; MOST_QUEUES as usize],
    lengths: &[usize; MOST_QUEUES as usize],
    count: usize,
) -> Result<DiagramState, Lost>
    requires arcs_small { ArcsSmall arcs.now }
    requires from_le_most_pool { from.0 ≤ most_pool }
    requires rings { Rings memory.now heads.now lengths.now count }
    requires between { Between 0 most_messages (word (rings memory.now heads.now lengths.now count)) }
    ensures { Leads arcs.now from.0 (word (rings memory.now heads.now lengths.now count)) result }
{
    if from.is_nowhere() {
        return Err(Lost(0));
    }
    let mut row = row_of(from.state());
    for q in 0..count {
        let ring = Ring::<QUEUE_ROOM> {
            table: memory,
            base: q * QUEUE_ROOM,
            head: heads[q],
            count: lengths[q],
        };
        match follow(arcs, row, ring) {
            Ok(next) => row = next,
            Err(Lost(n)) => return Err(Lost(waiting_in(lengths, q) + n)),
        }
    }
    Ok(state_of(row))
}
