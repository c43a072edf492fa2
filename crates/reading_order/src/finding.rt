// The nodes of the search for words out of order, found one after the other. A node is a diagram state and a rank: the queue of the message
// that led there, 0 at a root, or WRONG after messages in the wrong order.
ghost use Rattle.std.specs.Prelude.{◌≡◌, [], ◌∷◌, ◌+◌, ◌-◌, ◌≤◌, ◌<◌};
ghost use Rattle.tables.specs.Limits.{most_pool, most_queues, most_messages};
ghost use Rattle.tables.specs.Queues.{first_message};
ghost use Rattle.tables.specs.Pool.{pool_arcs};
ghost use Rattle.tables.specs.Lookup.{ArcsSmall};
ghost use Rattle.reading_order.specs.Nodes.{ranks, most_nodes, rank_after, arc_nodes, next_nodes, root_nodes, bad_nodes};
ghost use Rattle.reading_order.specs.Found.{Found, arc_node, step_nodes, RootsSmall, BadSmall};

use numbers::number::{entry, wide};
use tables::kinds::{DiagramState, Message};
use tables::lookup::arc_from;
use tables::tables::{ARCS, ENTRY, MOST_QUEUES, Queues};

pub const WRONG: usize = MOST_QUEUES as usize;

pub const RANKS: usize = WRONG + 1;

pub const NODES: usize = DiagramState::LIMIT * RANKS;

// The nodes found: the first `count` of `list`, in the order in which they were found. Each of them is marked in `seen`.
#[derive(Drop)]
pub(crate) struct FoundNodes {
    pub(crate) seen: [u8; NODES],
    pub(crate) list: [u16; NODES],
    pub(crate) count: usize,
    pub(crate) ghost found: { Found seen list count },
}

impl FoundNodes {
    ghost use Rattle.reading_order.specs.Finds.{Finds};

    pub(crate) fn none() -> Self
        ensures { result.count ≡ 0 }
    {
        FoundNodes {
            seen: [0u8; NODES],
            list: [0u16; NODES],
            count: 0,
        }
    }

    // A node goes to the end of those found, unless it is there.
    fn find(&mut self, node: usize)
        requires { node < most_nodes }
        ensures { Finds self.old (node ∷ []) self.new }
    {
        if self.seen[node] != 0 {
            return;
        }
        self.seen[node] = 1;
        self.list[self.count] = node as u16;
        self.count += 1;
    }

    // The node that an arc of this row leads to, with the rank after its message, if there is one. Its number is made from the arc's entry in the
    // table, 1 plus the state: the compiler takes the entry as it was read.
    fn find_arc(&mut self, arcs: &[u8], row: usize, m: Message, rank: usize)
        requires arcs_small { ArcsSmall arcs.now }
        requires m_bound { row + m.0 < pool_arcs }
        requires rank_lt_ranks { rank < ranks }
        ensures { Finds self.old (step_nodes (arc_node arcs.now row rank m.0)) self.new }
    {
        let Some(s) = arc_from(arcs, row, m) else {
            return;
        };
        self.find(wide(s.0 + 1) * RANKS + rank - RANKS);
    }

    // Where the arcs of a state lead, for the messages from first on and below end.
    fn find_arcs(&mut self, arcs: &[u8], s: DiagramState, rank: usize, first: u8, end: u8)
        requires arcs_small { ArcsSmall arcs.now }
        requires s_lt_most_pool { s.0 < most_pool }
        requires rank_lt_ranks { rank < ranks }
        requires first_le_end { first ≤ end }
        requires end_le_most_messages { end ≤ most_messages }
        ensures { Finds self.old (arc_nodes arcs.now s.0 rank (end - first) first) self.new }
    {
        let row = wide(s.0) * ARCS;
        for m in first..end {
            self.find_arc(arcs, row, Message(m), rank);
        }
    }

    // All that a node leads to, queue by queue.
    pub(crate) fn find_next(&mut self, arcs: &[u8], q: &Queues, node: usize)
        requires arcs_small { ArcsSmall arcs.now }
        requires queues_le_most_queues { q.now.count ≤ most_queues }
        requires queues_bound { first_message q.now.messages q.now.count ≤ most_messages }
        requires node_lt_most_nodes { node < most_nodes }
        ensures { Finds self.old (next_nodes arcs.now q.now.messages q.now.count node) self.new }
    {
        let s = DiagramState((node / RANKS) as u8);
        let rank = node % RANKS;
        let mut first: u8 = 0;
        for queue in 0..wide(q.count) {
            let end = first + q.messages[queue];
            self.find_arcs(arcs, s, rank_after(rank, queue), first, end);
            first = end;
        }
    }

    // The roots of the control states that have one.
    pub(crate) fn find_roots(&mut self, roots: &[u8], controls: usize)
        requires { RootsSmall roots.now }
        ensures { Finds self.old (root_nodes roots.now controls 0) self.new }
    {
        for c in 0..controls {
            let root = entry(roots, c);
            if root == 0 {
                continue;
            }
            self.find(wide(root - 1) * RANKS);
        }
    }

    // The roots of the bad entries. Apart from `find_roots`, since one function over both would take the look-up as a closure and say in its contract
    // what that answers: it is longer than the two loops.
    pub(crate) fn find_bad(&mut self, rows: &[u8], entries: u8)
        requires { BadSmall rows.now entries }
        ensures { Finds self.old (bad_nodes rows.now entries 0) self.new }
    {
        for b in 0..wide(entries) {
            let root = entry(rows, b * ENTRY + 1);
            self.find(wide(root) * RANKS);
        }
    }
}

// The rank after a message of this queue. What was wrong stays wrong.
fn rank_after(rank: usize, queue: usize) -> usize
    ensures { result ≡ rank_after rank queue }
{
    if queue < rank { WRONG } else { queue }
}
