// The ends of what is read: fields 5 and 6, queue order, and nothing after the last field. What they are read over is handed in, so it
// may be of other bytes.
ghost use Rattle.std.specs.Prelude.{◌≡◌, ◌≤◌};
ghost use Rattle.numbers.specs.Said.{said_with};
ghost use Rattle.reading_pool.specs.Lent.{lent_pool};
ghost use Rattle.tables.specs.Limits.{most_controls};
ghost use Rattle.tables.specs.Valid.{QueuesValid, PoolValid};
ghost use Rattle.reading_file.specs.Ends.{read_ends};

use crate::sets::read_sets;
use numbers::reader::Reader;
use numbers::refusal::Refusal;
use reading_order::order::in_queue_order;
use tables::tables::{Queues, SetTables};

// Over so many control states, these queues, and the pool of so many states with these final marks and arcs. The sets that are lent are those read, whatever they were.
pub fn read_ends(
    r: &mut Reader<'_>,
    product: usize,
    q: &Queues,
    states: u8,
    finals: &[u8],
    arcs: &[u8],
    sets: &mut SetTables,
) -> Result<(), Refusal>
    requires product_le_most_controls { product ≤ most_controls }
    requires queues_valid { QueuesValid q.now }
    requires pool_valid { PoolValid q.now.sum (lent_pool states finals.now arcs.now) }
    ensures read { said_with (λ _. sets.new) result r.new.place ≡ read_ends r.old.bytes.now r.old.place product q.now (lent_pool states finals.now arcs.now) }
    ensures bytes { r.new.bytes ≡ r.old.bytes }
{
    read_sets(r, product, states, sets)?;
    if !in_queue_order(q, finals, arcs, product, sets) {
        return Err(Refusal::NotInQueueOrder(r.place));
    }
    if r.place < r.bytes.len() {
        return Err(Refusal::Trailing(r.place));
    }
    Ok(())
}
