// What the benchmark calls: the services as C functions.
#![tactic(auto)]

ghost use Rattle.std.specs.Prelude.{◌≡◌};
ghost use Rattle.reading_file.specs.File.{read_file, tables_read};
ghost use Rattle.benchmark.specs.Measured.{together, sampled, told_of, Told};

use checking_file::check::check;
use numbers::number::wide;
use reading_file::reading::read_into;
use tables::kinds::DiagramState;
use tables::tables::{MOST_CONTROLS, POOL_ARCS, ROWS};
use verdicts::verdict::{CheckRefusal, Failing, Verdict};

fn sample(
    rows: &[u8; ROWS],
    finals: &[u8; DiagramState::LIMIT],
    arcs: &[u8; POOL_ARCS],
    roots: &[u8; MOST_CONTROLS],
    i: usize,
) -> usize
    ensures { result ≡ together rows.now finals.now arcs.now roots.now i }
{
    if i < DiagramState::LIMIT {
        return wide(rows[i]) + wide(finals[i]) + wide(arcs[i]) + wide(roots[i]);
    }
    0
}

// Reading as checking and replaying call it, into tables that are lent. The entries at index i of the four tables, together: so none is left
// unfilled.
#[unsafe(no_mangle)]
pub extern "C" fn measured_read(file: &[u8], i: usize) -> usize
    ensures { result ≡ sampled (tables_read (read_file file.now)) i }
{
    let mut rows = [0u8; ROWS];
    let mut finals = [0u8; DiagramState::LIMIT];
    let mut arcs = [0u8; POOL_ARCS];
    match read_into(file, &mut rows, &mut finals, &mut arcs) {
        Ok(read) => sample(&rows, &finals, &arcs, &read.sets.map.roots, i),
        Err(_) => sample(&rows, &finals, &arcs, &[0u8; MOST_CONTROLS], i),
    }
}

// A function and no `From`: the number means something to the benchmark alone.
fn told(checked: Result<Verdict, CheckRefusal>) -> usize
    ensures { result ≡ told_of checked }
{
    match checked {
        Ok(Verdict::Closed(pairs)) => pairs,
        Ok(Verdict::Fails(Failing::Outside)) => 3000000000,
        Ok(Verdict::Fails(Failing::Leaves(_, _, shown, _))) => 2000000000 + shown % 1000000,
        Ok(Verdict::Fails(Failing::Bad(_, shown))) => 2000000000 + shown % 1000000,
        Err(_) => 3000000000,
    }
}

// Of closed the pairs; of contents shown their number and 2,000,000,000; of anything else 3,000,000,000.
#[unsafe(no_mangle)]
pub extern "C" fn measured_check(
    file: &[u8],
    seen: &mut [u16],
    queue: &mut [u16],
    contents: &mut [u8],
) -> usize
    ensures { Told file.now seen.old queue.old contents.old result seen.new queue.new contents.new }
{
    told(check(file, seen, queue, contents))
}
