// The test of queue order: no node that is reached from a root is at a final state after messages in the wrong order.
ghost use Rattle.std.specs.Prelude.{◌≡◌, ◌≤◌, ◌<◌, length, take};
ghost use Rattle.tables.specs.Limits.{most_pool, most_queues, most_messages};
ghost use Rattle.tables.specs.Queues.{first_message};
ghost use Rattle.tables.specs.Lookup.{ArcsSmall};
ghost use Rattle.tables.specs.declared.tables.Pool.{Pool};
ghost use Rattle.reading_order.specs.Nodes.{most_nodes, fails};
ghost use Rattle.reading_order.specs.Found.{RootsSmall, BadSmall};
ghost use Rattle.reading_order.specs.Search.{none_fails, in_queue_order};

use crate::finding::{FoundNodes, RANKS, WRONG};
use tables::kinds::{DiagramState, Reached};
use tables::lookup::is_final;
use tables::tables::{MOST_QUEUES, Queues, SetTables};

// Does a word out of order end here, and is it accepted?
fn is_fault(finals: &[u8], node: usize) -> bool
    requires finals_len { length finals.now ≡ most_pool }
    requires node_lt_most_nodes { node < most_nodes }
    ensures { result ≡ fails finals.now node }
{
    let last = is_final(finals, Reached::at(DiagramState((node / RANKS) as u8)));
    if node % RANKS == WRONG {
        return last;
    }
    false
}

// The nodes that are found are taken in turn, up to the first that fails.
fn none_fails(found: &mut FoundNodes, arcs: &[u8], finals: &[u8], q: &Queues) -> bool
    requires arcs_small { ArcsSmall arcs.now }
    requires finals_len { length finals.now ≡ most_pool }
    requires queues_le_most_queues { q.now.count ≤ most_queues }
    requires queues_bound { first_message q.now.messages q.now.count ≤ most_messages }
    ensures { result ≡ none_fails arcs.now finals.now q.now.messages q.now.count (take found.old.count found.old.list) }
{
    let mut k: usize = 0;
    // Counted by hand: the list of nodes grows while it is gone through, and an iterator would borrow it.
    while k < found.count {
        let node = found.list[k] as usize;
        if is_fault(finals, node) {
            return false;
        }
        found.find_next(arcs, q, node);
        k += 1;
    }
    true
}

// THE TEST OF QUEUE ORDER, of the pool with these arcs and final marks, from the roots of so many control states and of the bad entries.
pub fn in_queue_order(
    q: &Queues,
    finals: &[u8],
    arcs: &[u8],
    controls: usize,
    sets: &SetTables,
) -> bool
    requires count_le_most_queues { q.now.count ≤ most_queues }
    requires count_bound { first_message q.now.messages q.now.count ≤ most_messages }
    requires finals_len { length finals.now ≡ most_pool }
    requires arcs_small { ArcsSmall arcs.now }
    requires roots_small { RootsSmall sets.now.map.roots }
    requires bad_small { BadSmall sets.now.bad.rows sets.now.bad.count }
    ensures { (P : Pool) → P.finals ≡ finals.now → P.arcs ≡ arcs.now → result ≡ in_queue_order q.now P controls sets.now }
{
    let mut found = FoundNodes::none();
    found.find_roots(&sets.map.roots, controls);
    found.find_bad(&sets.bad.rows, sets.bad.count);
    none_fails(&mut found, arcs, finals, q)
}
