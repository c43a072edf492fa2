// The verdict on tables that were read.
ghost use Rattle.std.specs.Prelude.{◌≡◌, Some, length, replicate};
ghost use Rattle.checking_pairs.specs.Pairs.{most_codes};
ghost use Rattle.reading_file.specs.Session.{tables_in};
ghost use Rattle.checking_cursor.specs.declared.cursor.Cursor.TheVariants.{Start};
ghost use Rattle.checking_items.specs.Promises.{Ready};
ghost use Rattle.checking_session.specs.Promises.{FromJudged};
ghost use Rattle.checking_file.specs.Check.{Room, lent, Concludes};

use crate::check::TABLE_LEAST;
use checking_cursor::cursor::Cursor;
use checking_items::scratch::Scratch;
use checking_session::session::judge_from;
use reading_file::session::Session;
use verdicts::verdict::{Failing, Verdict};

// The whole table is set to 0.
pub fn blank(table: &mut [u16])
    ensures { table.new ≡ replicate (length table.old) 0 }
{
    table.fill(0);
}

// All items, over tables as a walk wants them. The tables are cut off at the call and not in the literal of `Scratch`: there the check knows nothing of what
// they end as.
fn judge_all(
    s: &Session<'_>,
    seen: &mut [u16],
    queue: &mut [u16],
    contents: &mut [u8],
) -> Result<usize, Failing>
    requires ready { Ready (lent contents.old seen.old queue.old) }
    ensures { FromJudged (tables_in s.now) (Some Start) 0 contents.old result (lent contents.new seen.new queue.new) }
{
    let mut m = Scratch {
        seen,
        queue,
        contents,
    };
    judge_from(s, Some(Cursor::Start), 0, &mut m)
}

// The same over the first n entries of tables that are all 0, as a verdict.
fn judge_lent(
    s: &Session<'_>,
    n: usize,
    seen: &mut [u16],
    queue: &mut [u16],
    contents: &mut [u8],
) -> Verdict
    requires room { Room n seen.old queue.old contents.old }
    ensures { Concludes (tables_in s.now) (lent contents.old seen.old queue.old) result (lent contents.new seen.new queue.new) }
{
    Verdict::from(judge_all(s, &mut seen[..n], &mut queue[..n], contents))
}

// The verdict on a session, over scratch tables that are all 0.
pub fn judge_read(
    s: &Session<'_>,
    seen: &mut [u16],
    queue: &mut [u16],
    contents: &mut [u8],
) -> Verdict
    requires room { Room most_codes seen.old queue.old contents.old }
    ensures { Concludes (tables_in s.now) (lent contents.old seen.old queue.old) result (lent contents.new seen.new queue.new) }
{
    judge_lent(s, TABLE_LEAST, seen, queue, contents)
}
