// A step or a bad entry, judged by itself.
ghost use Rattle.reading_file.specs.Session.{tables_in};
ghost use Rattle.checking_items.specs.Judging.{StepOf, EntryOf};
ghost use Rattle.checking_items.specs.Promises.{memory, Ready, SameLent, EntryJudged, StepJudged};

use crate::cut::cut_of;
use crate::scratch::Scratch;
use checking_pairs::over::WalkOver;
use checking_pairs::pairs::{AFTER, Node, Walk};
use checking_walk::judge::{Shown, judge};
use controls::moves::moved;
use reading_file::session::Session;
use tables::kinds::{ControlState, DiagramState, Reached};
use tables::lookup::root_of;
use tables::tables::WORD;

// The step of a transition from a control state.
pub fn judge_step(
    s: &Session<'_>,
    c: ControlState,
    row: usize,
    m: &mut Scratch<'_>,
) -> Result<usize, Shown>
    requires step { StepOf (tables_in s.now) c.0 row }
    requires ready { Ready (memory m.old) }
    ensures judged { StepJudged (tables_in s.now) c.0 row m.old.contents.now result (memory m.new) }
    ensures same { SameLent m.old m.new }
{
    let t = &s.tables;
    let source = root_of(t.roots, c);
    if source.is_nowhere() {
        return Ok(0);
    }
    let to = moved(t.head.machines, t.rows, row, c);
    let target = root_of(t.roots, to);
    let cut = cut_of(t.head.queues, t.rows, row);
    let over = WalkOver {
        walk: Walk {
            cut: cut.cut,
            sum: t.head.queues.sum,
            word: row + WORD,
            out: cut.out,
            into: cut.into,
            entry: false,
        },
        arcs: t.arcs,
        finals: t.finals,
        rows: t.rows,
    };
    let root = Node {
        side: cut.side,
        source: source.state(),
        target,
    };
    judge(&over, root, m.seen, m.queue, m.contents)
}

// A bad entry: contents of its control state that lead from its root to a final state. It shares with a step the call of `judge`; what a walk needs of
// either, one function would be handed as parameters.
pub fn judge_entry(
    s: &Session<'_>,
    control: ControlState,
    root: DiagramState,
    m: &mut Scratch<'_>,
) -> Result<usize, Shown>
    requires entry { EntryOf (tables_in s.now) control.0 root.0 }
    requires ready { Ready (memory m.old) }
    ensures judged { EntryJudged (tables_in s.now) control.0 root.0 m.old.contents.now result (memory m.new) }
    ensures same { SameLent m.old m.new }
{
    let t = &s.tables;
    let source = root_of(t.roots, control);
    if source.is_nowhere() {
        return Ok(0);
    }
    let over = WalkOver {
        walk: Walk {
            cut: 0,
            sum: t.head.queues.sum,
            word: 0,
            out: 0,
            into: 0,
            entry: true,
        },
        arcs: t.arcs,
        finals: t.finals,
        rows: t.rows,
    };
    let from = source.state();
    let pair = Node {
        side: AFTER,
        source: from,
        target: Reached::at(root),
    };
    judge(&over, pair, m.seen, m.queue, m.contents)
}
