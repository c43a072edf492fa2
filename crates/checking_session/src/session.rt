// All items from one of them on, and that one alone.
ghost use Rattle.std.specs.Prelude.{◌<◌, ◌*◌, ◌≤◌};
ghost use Rattle.reading_file.specs.Session.{tables_in};
ghost use Rattle.checking_pairs.specs.Pairs.{most_codes};
ghost use Rattle.checking_cursor.specs.Left.{Stands, place_of};
ghost use Rattle.checking_items.specs.Promises.{memory, Ready, SameLent};
ghost use Rattle.checking_session.specs.Judges.{ample_pairs, pairs_before};
ghost use Rattle.checking_session.specs.Promises.{FromStepJudged, AtJudged, FromJudged};

use crate::entries::{judge_entries, judge_one};
use crate::steps::{judge_steps, judge_turn};
use checking_cursor::cursor::Cursor;
use checking_items::begin::begins_inside;
use checking_items::scratch::Scratch;
use numbers::number::wide;
use reading_file::session::Session;
use verdicts::verdict::Failing;

// The steps from transition `first` of control state `from` on, then the bad entries.
fn judge_from_step(
    s: &Session<'_>,
    from: usize,
    first: usize,
    pairs: usize,
    m: &mut Scratch<'_>,
) -> Result<usize, Failing>
    requires within { (from < s.now.tables.head.machines.product) × (first ≤ s.now.tables.head.transitions) }
    requires pairs_bound { pairs ≤ pairs_before from first }
    requires ready { Ready (memory m.old) }
    ensures judged { FromStepJudged (tables_in s.now) from first pairs m.old.contents.now result (memory m.new) }
    ensures same { SameLent m.old m.new }
{
    let sum = judge_steps(s, from, first, pairs, m)?;
    judge_entries(s, 0, sum, m)
}

// All items from the cursor on, after items with so many pairs.
pub fn judge_from(
    s: &Session<'_>,
    at: Option<Cursor>,
    pairs: usize,
    m: &mut Scratch<'_>,
) -> Result<usize, Failing>
    requires stands { Stands s.now.tables.head s.now.tables.rows.now at × (pairs ≤ most_codes * place_of at) }
    requires ready { Ready (memory m.old) }
    ensures judged { FromJudged (tables_in s.now) at pairs m.old.contents.now result (memory m.new) }
    ensures same { SameLent m.old m.new }
{
    let Some(item) = at else {
        return Ok(pairs);
    };
    match item {
        Cursor::Start => {
            if !begins_inside(s) {
                return Err(Failing::Outside);
            }
            judge_from_step(s, 0, 0, pairs, m)
        }
        Cursor::Step(c, i) => judge_from_step(s, wide(c.0), i, pairs, m),
        Cursor::Entry(b) => judge_entries(s, b, pairs, m),
    }
}

// The item that the cursor stands at, after items with so many pairs.
pub fn judge_at(
    s: &Session<'_>,
    at: Option<Cursor>,
    pairs: usize,
    m: &mut Scratch<'_>,
) -> Result<usize, Failing>
    requires stands { Stands s.now.tables.head s.now.tables.rows.now at × (pairs ≤ ample_pairs) }
    requires ready { Ready (memory m.old) }
    ensures judged { AtJudged (tables_in s.now) at pairs m.old.contents.now result (memory m.new) }
    ensures same { SameLent m.old m.new }
{
    let Some(item) = at else {
        return Ok(pairs);
    };
    match item {
        Cursor::Start => {
            if !begins_inside(s) {
                return Err(Failing::Outside);
            }
            Ok(pairs)
        }
        Cursor::Step(c, i) => judge_turn(s, c, i, pairs, m),
        Cursor::Entry(b) => judge_one(s, b, pairs, m),
    }
}
