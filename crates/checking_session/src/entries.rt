// The bad entries, in their order.
ghost use Rattle.std.specs.Prelude.{◌<◌, ◌≤◌};
ghost use Rattle.reading_file.specs.Session.{tables_in};
ghost use Rattle.checking_items.specs.Promises.{memory, Ready, SameLent};
ghost use Rattle.checking_session.specs.Judges.{ample_pairs, pairs_to_entry};
ghost use Rattle.checking_session.specs.Promises.{OneJudged, EntriesJudged};

use checking_items::item::judge_entry;
use checking_items::scratch::Scratch;
use checking_walk::judge::Shown;
use numbers::number::wide;
use reading_file::session::Session;
use tables::kinds::{ControlState, DiagramState};
use tables::tables::ENTRY;
use verdicts::verdict::Failing;

// Bad entry b, after items with so many pairs.
pub(crate) fn judge_one(
    s: &Session<'_>,
    b: usize,
    pairs: usize,
    m: &mut Scratch<'_>,
) -> Result<usize, Failing>
    requires within { (b < s.now.tables.head.bad) × (pairs ≤ ample_pairs) }
    requires ready { Ready (memory m.old) }
    ensures judged { OneJudged (tables_in s.now) b pairs m.old.contents.now result (memory m.new) }
    ensures same { SameLent m.old m.new }
{
    let entries = s.tables.entries;
    let control = ControlState::new(wide(entries[b * ENTRY]));
    let root = DiagramState::new(wide(entries[b * ENTRY + 1]));
    match judge_entry(s, control, root, m) {
        Ok(more) => Ok(pairs + more),
        Err(Shown(shown)) => Err(Failing::Bad(b, shown)),
    }
}

// The bad entries from number `first` on.
pub(crate) fn judge_entries(
    s: &Session<'_>,
    first: usize,
    pairs: usize,
    m: &mut Scratch<'_>,
) -> Result<usize, Failing>
    requires within { (first ≤ s.now.tables.head.bad) × (pairs ≤ pairs_to_entry first) }
    requires ready { Ready (memory m.old) }
    ensures judged { EntriesJudged (tables_in s.now) first pairs m.old.contents.now result (memory m.new) }
    ensures same { SameLent m.old m.new }
{
    let mut sum = pairs;
    for b in first..wide(s.tables.head.bad) {
        sum = judge_one(s, b, sum, m)?;
    }
    Ok(sum)
}
