// The line of one replay: the reply, the numbers of the record and the digest of the memory, with bars between them.
use numbers::refusal::{MOST_BYTES, NOT_POSSIBLE, QUEUE_FULL, SHORT_MEMORY, TOO_LONG};
use replaying_step::runs::RunRecord;
use replaying_trace::progress::{Ended, ReplayRefusal, Stop};
use std::io;
use std::io::Write;

fn step_refused<W: Write>(output: &mut W, cause: usize, at: usize, steps: usize) -> io::Result<()> {
    write!(output, "refused {cause} at {at} after {steps}")
}

fn ended<W: Write>(output: &mut W, ended: Ended) -> io::Result<()> {
    let steps = ended.steps;
    match ended.why {
        Stop::End => write!(output, "end {steps}"),
        Stop::Outside(far) => write!(output, "outside {steps} {far}"),
        Stop::Unread(why) => step_refused(output, why.number(), why.place(), steps),
        Stop::NotPossible(at) => step_refused(output, NOT_POSSIBLE, at, steps),
        Stop::NoRoom(at) => step_refused(output, QUEUE_FULL, at, steps),
    }
}

fn refused<W: Write>(output: &mut W, why: ReplayRefusal) -> io::Result<()> {
    match why {
        ReplayRefusal::File(why) => {
            write!(output, "file refused {} at {}", why.number(), why.place())
        }
        ReplayRefusal::TraceTooLong => {
            write!(output, "trace refused {} at {}", TOO_LONG, MOST_BYTES)
        }
        ReplayRefusal::MemoryShort => { write!(output, "memory refused {} at {}", SHORT_MEMORY, 0) }
    }
}

fn numbers<W: Write>(output: &mut W, numbers: &[usize]) -> io::Result<()> {
    for n in numbers {
        write!(output, " {n}")?;
    }
    Ok(())
}

fn record<W: Write>(output: &mut W, r: &RunRecord) -> io::Result<()> {
    for state in r.states {
        write!(output, " {state}")?;
    }
    numbers(output, &r.heads)?;
    numbers(output, &r.lengths)
}

pub(crate) fn report<W: Write>(
    output: &mut W,
    reply: Result<Ended, ReplayRefusal>,
    after: &RunRecord,
    digest: u64,
) -> io::Result<()> {
    match reply {
        Ok(end) => ended(output, end)?,
        Err(why) => refused(output, why)?,
    }
    write!(output, " |")?;
    record(output, after)?;
    writeln!(output, " | {digest}")
}
