// Checking a session file: the verdict on the whole file, over memory that the caller lends.
ghost use Rattle.std.specs.Prelude.{◌≡◌, List, ℕ};
ghost use Rattle.theory_files.specs.Checking.{enough, Checks, CheckMeans, CheckTwoRuns};
ghost use Rattle.verdicts.specs.Said.{said_verdict, Shows};

use crate::judging::{blank, judge_read};
use checking_pairs::pairs::CODES;
use numbers::refusal::{MOST_BYTES, Refusal};
use reading_file::reading::read_into;
use reading_file::session::Session;
use tables::kinds::DiagramState;
use tables::tables::{CONTENTS_LEAST, MOST_WORD, POOL_ARCS, ROWS};
use tables::view::TablesView;
use verdicts::verdict::{CheckRefusal, Verdict};

// Entries that a scratch table needs.
pub const TABLE_LEAST: usize = CODES;

// The most messages that are shown.
pub const MOST_SHOWN: usize = TABLE_LEAST + MOST_WORD as usize;

// Whether the tables and the buffer are long enough for a check.
fn is_enough(seen: &[u16], queue: &[u16], contents: &[u8]) -> bool
    ensures { result ≡ enough seen.now queue.now contents.now }
{
    TABLE_LEAST <= seen.len() && TABLE_LEAST <= queue.len() && CONTENTS_LEAST <= contents.len()
}

// Checks a session file with two scratch tables and a contents buffer, of any lengths and with any contents. A refusal leaves
// all three as they were. A verdict leaves both tables 0; the contents it shows fill the front of the buffer.
pub fn check(
    file: &[u8],
    seen: &mut [u16],
    queue: &mut [u16],
    contents: &mut [u8],
) -> Result<Verdict, CheckRefusal>
    ensures checks { Checks file.now seen.old queue.old contents.old (said_verdict result contents.new) seen.new queue.new contents.new }
    ensures two_runs { (ts : List ℕ) → CheckTwoRuns file.now seen.old queue.old contents.old (said_verdict result contents.new) ts }
    ensures means { CheckMeans file.now seen.old queue.old contents.old (said_verdict result contents.new) }
    ensures shows { Shows result contents.new }
{
    if MOST_BYTES < file.len() {
        return Err(CheckRefusal::File(Refusal::TooLong));
    }
    if !is_enough(seen, queue, contents) {
        return Err(CheckRefusal::ShortMemory);
    }
    let mut rows = [0u8; ROWS];
    let mut finals = [0u8; DiagramState::LIMIT];
    let mut arcs = [0u8; POOL_ARCS];
    let read = read_into(file, &mut rows, &mut finals, &mut arcs)?;
    blank(seen);
    blank(queue);
    let sets = read.sets;
    let map = sets.map;
    let roots = map.roots;
    let bad = sets.bad;
    let entries = bad.rows;
    let session = Session {
        tables: TablesView {
            head: read.head,
            rows: &rows,
            finals: &finals,
            arcs: &arcs,
            roots: &roots,
            entries: &entries,
        },
    };
    Ok(judge_read(&session, seen, queue, contents))
}
