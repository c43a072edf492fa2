// The judgement of one walk: searched, the contents shown, and the tables cleared.
ghost use Rattle.std.specs.Prelude.{◌≡◌, ◌≤◌, length};
ghost use Rattle.tables.specs.Limits.{contents_least};
ghost use Rattle.checking_pairs.specs.Pairs.{most_codes, pair_of, NodeFits};
ghost use Rattle.checking_pairs.specs.Marks.{Blank};
ghost use Rattle.checking_walk.specs.Judged.{ShownFits, WalkJudged, Counts};

use crate::contents::show;
use crate::search::search;
use checking_pairs::marks::Marks;
use checking_pairs::over::WalkOver;
use checking_pairs::pairs::Node;

// A pair fails, and the contents that lead to it are shown: so many messages.
#[derive(Clone, Copy, Debug, PartialEq, Eq)]
pub struct Shown(pub usize);

// The number of different pairs, if none fails.
pub fn judge(
    t: &WalkOver<'_>,
    root: Node,
    seen: &mut [u16],
    queue: &mut [u16],
    contents: &mut [u8],
) -> Result<usize, Shown>
    requires node_fits { NodeFits root }
    requires blank { Blank seen.old queue.old }
    requires seen_len { length seen.old ≡ most_codes }
    requires queue_len { length queue.old ≡ most_codes }
    requires shown_fits { ShownFits t.now.arcs.now t.now.finals.now t.now.rows.now t.now.walk (pair_of root) }
    requires contents_least_in_bounds { contents_least ≤ length contents.old }
    ensures walk_judged { WalkJudged t.now.arcs.now t.now.finals.now t.now.rows.now t.now.walk (pair_of root) contents.old seen.new queue.new contents.new result }
    ensures counts { Counts t.now.arcs.now t.now.finals.now t.now.rows.now t.now.walk (pair_of root) result }
{
    let mut found = Marks {
        seen,
        queue,
        tail: 0,
    };
    match search(t, root, &mut found) {
        None => {
            let n = found.tail;
            found.clear();
            Ok(n)
        }
        Some(k) => {
            let n = show(t, &found, k, contents);
            found.clear();
            Err(Shown(n))
        }
    }
}
