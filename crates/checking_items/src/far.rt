// How far the contents after a step are followed.
ghost use Rattle.following.specs.After.{ContentsAt};
ghost use Rattle.reading_file.specs.Session.{tables_in};
ghost use Rattle.checking_items.specs.Far.{FarFound};
ghost use Rattle.checking_items.specs.Judging.{StepOf};

use crate::cut::cut_of;
use controls::moves::moved;
use following::after::{Exchange, far_after};
use reading_file::session::Session;
use tables::kinds::ControlState;
use tables::lookup::root_of;
use tables::tables::WORD;

// From the root of the control state that the step leads to, over the contents before it.
pub fn far_of(s: &Session<'_>, c: ControlState, row: usize, contents: &[u8], shown: usize) -> usize
    requires step { StepOf (tables_in s.now) c.0 row }
    requires contents_at { ContentsAt contents.now shown }
    ensures { FarFound (tables_in s.now) c.0 row contents.now shown result }
{
    let t = &s.tables;
    let to = moved(t.head.machines, t.rows, row, c);
    let target = root_of(t.roots, to);
    let cut = cut_of(t.head.queues, t.rows, row);
    let x = Exchange {
        cut: cut.cut,
        out: cut.out,
        word: row + WORD,
        into: cut.into,
    };
    far_after(t.arcs, t.rows, x, target, contents, shown)
}
