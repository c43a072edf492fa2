// The search over the pairs of a walk, breadth first in lent tables.
ghost use Rattle.std.specs.Prelude.{◌≡◌, suc, ◌-◌, ◌<◌, ◌≤◌, length};
ghost use Rattle.tables.specs.Limits.{most_messages};
ghost use Rattle.checking_pairs.specs.Pairs.{most_codes, pair_of, NodeFits};
ghost use Rattle.checking_pairs.specs.Marks.{view, Tables, Pushed, Swept, Blank};
ghost use Rattle.checking_pairs.specs.Over.{go_over, wrong_over, search_over, read_from};
ghost use Rattle.checking_pairs.specs.Leads.{said_next, Small};
ghost use Rattle.checking_pairs.specs.Kept.{Kept};
ghost use Rattle.checking_walk.specs.Answers.{search_on, Answered};

use checking_pairs::marks::Marks;
use checking_pairs::moves::{read, step};
use checking_pairs::over::{StepOver, WalkOver};
use checking_pairs::pairs::Node;
use tables::kinds::{Message, Reached};
use tables::lookup::is_final;

// The pair that a letter leads to, if there is one, is marked.
fn mark_next(next: Option<usize>, from: usize, found: &mut Marks<'_>)
    requires small { Small next }
    requires tables { Tables found.old.seen.now found.old.queue.now found.old.tail }
    requires from_lt_tail { from < found.old.tail }
    ensures kept { Kept found.old found.new }
    ensures pushed { Pushed found.old.seen.now found.old.queue.now found.old.tail from (said_next next) found.new.seen.now found.new.queue.now found.new.tail }
{
    match next {
        Some(code) => found.mark(from, code),
        None => {}
    }
}

// Where the messages from first on and below end lead, lowest first. What the loop reads of the walk is taken out of it before.
fn sweep(t: &WalkOver<'_>, x: Node, first: u8, end: u8, from: usize, found: &mut Marks<'_>)
    requires node_fits { NodeFits x }
    requires first_le_end { first ≤ end }
    requires end_le_most_messages { end ≤ most_messages }
    requires tables { Tables found.old.seen.now found.old.queue.now found.old.tail }
    requires from_lt_tail { from < found.old.tail }
    ensures kept { Kept found.old found.new }
    ensures swept { Swept found.old.seen.now found.old.queue.now found.old.tail (read_from t.now.arcs.now t.now.walk.entry x) (pair_of x) from (end - first) first found.new.seen.now found.new.queue.now found.new.tail }
{
    let arcs = t.arcs;
    let entry = t.walk.entry;
    for m in first..end {
        mark_next(read(arcs, entry, x, Message(m)), from, found);
    }
}

// All that a pair leads to, by letter: on the before side the messages below the cut and then the step, on the after side the
// messages from the cut on.
fn visit(t: &WalkOver<'_>, x: Node, from: usize, found: &mut Marks<'_>)
    requires node_fits { NodeFits x }
    requires tables { Tables found.old.seen.now found.old.queue.now found.old.tail }
    requires from_lt_tail { from < found.old.tail }
    ensures kept { Kept found.old found.new }
    ensures swept { Swept found.old.seen.now found.old.queue.now found.old.tail (go_over t.now.arcs.now t.now.rows.now t.now.walk) (pair_of x) from (suc t.now.walk.sum) 0 found.new.seen.now found.new.queue.now found.new.tail }
{
    let w = t.walk;
    if x.side == 0 {
        sweep(t, x, 0, w.cut, from, found);
        let jump = StepOver {
            walk: w,
            arcs: t.arcs,
            rows: t.rows,
        };
        mark_next(step(&jump, x), from, found);
    } else {
        sweep(t, x, w.cut, w.sum, from, found);
    }
}

// A pair fails on the after side alone: for a step where the source accepts and the target does not, for a bad entry where
// both accept.
fn fails(t: &WalkOver<'_>, x: Node) -> bool
    requires { NodeFits x }
    ensures { result ≡ wrong_over t.now.finals.now t.now.walk.entry (pair_of x) }
{
    x.side != 0
        && is_final(t.finals, Reached::at(x.source))
        && is_final(t.finals, x.target) == t.walk.entry
}

// The pairs that are found are taken in turn. The place of the first that fails is told when it is taken. The end of the queue moves while
// it is read, so no range has it.
fn explore(t: &WalkOver<'_>, found: &mut Marks<'_>) -> Option<usize>
    requires { Tables found.old.seen.now found.old.queue.now found.old.tail }
    ensures kept { Kept found.old found.new }
    ensures answered { Answered found.new.seen.now found.new.queue.now found.new.tail result (search_on t.now.arcs.now t.now.finals.now t.now.rows.now t.now.walk (view found.old.seen.now found.old.queue.now found.old.tail)) }
{
    let mut k: usize = 0;
    while k < found.tail {
        let x = Node::of(usize::from(found.queue[k]));
        if fails(t, x) {
            return Some(k);
        }
        visit(t, x, k, found);
        k += 1;
    }
    None
}

// The walk from its first pair, over tables that are all 0: the place of the first pair that fails. There is room for every pair.
pub(crate) fn search(t: &WalkOver<'_>, root: Node, found: &mut Marks<'_>) -> Option<usize>
    requires node_fits { NodeFits root }
    requires blank { Blank found.old.seen.now found.old.queue.now }
    requires seen_len { length found.old.seen.now ≡ most_codes }
    requires queue_len { length found.old.queue.now ≡ most_codes }
    requires none_found { found.old.tail ≡ 0 }
    ensures kept { Kept found.old found.new }
    ensures answered { Answered found.new.seen.now found.new.queue.now found.new.tail result (search_over t.now.arcs.now t.now.finals.now t.now.rows.now t.now.walk (pair_of root)) }
{
    found.mark(0, root.code());
    explore(t, found)
}
