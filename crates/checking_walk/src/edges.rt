// The edges of a search, read back: the parent of a pair, and the lowest letter that leads from it to the pair.
ghost use Rattle.std.specs.Prelude.{◌≡◌, ◌-◌, ◌<◌, ◌≤◌};
ghost use Rattle.tables.specs.Limits.{most_messages};
ghost use Rattle.theory_exploration.specs.Search.{lowest_from};
ghost use Rattle.theory_model.specs.Judge.{same};
ghost use Rattle.checking_pairs.specs.Pairs.{most_codes, pair_of, decode, NodeFits};
ghost use Rattle.checking_pairs.specs.Over.{read_from};
ghost use Rattle.checking_walk.specs.Shown.{letter_over, LowestBelow, Placed, EdgeOf};

use checking_pairs::marks::Marks;
use checking_pairs::moves::{read, step};
use checking_pairs::over::{StepOver, WalkOver};
use checking_pairs::pairs::Node;
use tables::kinds::Message;

// The parent's place in the queue, and the letter.
#[derive(Clone, Copy, Debug, PartialEq, Eq)]
pub struct Edge {
    pub parent: usize,
    pub letter: u8,
}

// The lowest message from first on and below end that leads from one pair to the other.
fn message_to(t: &WalkOver<'_>, x: Node, first: u8, end: u8, code: usize) -> Option<u8>
    requires node_fits { NodeFits x }
    requires end_le_most_messages { end ≤ most_messages }
    ensures { LowestBelow end (lowest_from (read_from t.now.arcs.now t.now.walk.entry x) same (pair_of x) (decode code) (end - first) first) result }
{
    for m in first..end {
        if read(t.arcs, t.walk.entry, x, Message(m)) == Some(code) {
            return Some(m);
        }
    }
    None
}

// The lowest letter that leads from one pair to the other, or one past them all, as the definition's search has it. Only those of the
// pair's side are tried.
fn letter_of(t: &WalkOver<'_>, from: usize, code: usize) -> u8
    requires { from < most_codes }
    ensures { result ≡ letter_over t.now.arcs.now t.now.rows.now t.now.walk from code }
{
    let x = Node::of(from);
    let w = t.walk;
    if x.side == 0 {
        match message_to(t, x, 0, w.cut, code) {
            Some(m) => m,
            None => {
                let jump = StepOver {
                    walk: w,
                    arcs: t.arcs,
                    rows: t.rows,
                };
                if step(&jump, x) == Some(code) {
                    w.sum
                } else {
                    w.sum + 1
                }
            }
        }
    } else {
        match message_to(t, x, w.cut, w.sum, code) {
            Some(m) => m,
            None => w.sum + 1,
        }
    }
}

// The edge that a pair was found along; the first pair has none.
pub(crate) fn edge_to(t: &WalkOver<'_>, found: &Marks<'_>, k: usize) -> Edge
    requires placed { Placed found.now.seen.now found.now.queue.now k }
    requires k_nonzero { 0 < k }
    ensures { EdgeOf t.now.arcs.now t.now.rows.now t.now.walk found.now.seen.now found.now.queue.now k result }
{
    let code = usize::from(found.queue[k]);
    let parent = usize::from(found.seen[code]) - 1;
    let from = usize::from(found.queue[parent]);
    Edge {
        parent,
        letter: letter_of(t, from, code),
    }
}
