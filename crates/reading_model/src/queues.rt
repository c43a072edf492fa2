// Field 2: the queues, and what waits in them at the start.
ghost use Rattle.std.specs.Prelude.{◌≡◌, ◌≤◌, ◌+◌, IfOk, replicate};
ghost use Rattle.numbers.specs.Said.{said, said_with};
ghost use Rattle.tables.specs.Limits.{most_queues, most_messages};
ghost use Rattle.reading_model.specs.Queues.{read_term, read_counts, counted_queues, read_queues};

use crate::starting::read_starting;
use numbers::reader::Reader;
use numbers::refusal::Refusal;
use tables::tables::{MOST_MESSAGES, MOST_QUEUES, Queues, STARTING};

// Queues that were read.
#[derive(Clone, Copy)]
pub(crate) struct Counted {
    pub(crate) queues: Queues,
    ghost few: { queues.count ≤ most_queues },
}

// How many messages the next queue has, after queues with this sum.
#[tactic(auto, using(numbers::specs::Laws::Parts::handed_on), unfolding(crate::specs::Queues::read_term))]
fn read_term(r: &mut Reader<'_>, sum: u8) -> Result<u8, Refusal>
    ensures read { said result r.new.place ≡ read_term r.old.bytes.now r.old.place sum }
    ensures most { IfOk result (λ v. sum + v ≤ most_messages) }
    ensures bytes { r.new.bytes ≡ r.old.bytes }
{
    let at = r.place;
    let v = r.within(1, MOST_MESSAGES)?;
    if usize::from(MOST_MESSAGES) < usize::from(sum) + usize::from(v) {
        return Err(Refusal::PassesLimit(at));
    }
    Ok(v)
}

// The sum of the queues' messages, and the messages of each.
fn read_counts(
    r: &mut Reader<'_>,
    count: usize,
) -> Result<(u8, [u8; MOST_QUEUES as usize]), Refusal>
    requires { count ≤ most_queues }
    ensures read { said result r.new.place ≡ read_counts r.old.bytes.now r.old.place 0 count 0 (replicate most_queues 0) }
    ensures bytes { r.new.bytes ≡ r.old.bytes }
{
    let mut sum = 0;
    let mut counts = [0u8; MOST_QUEUES as usize];
    for i in 0..count {
        let v = read_term(r, sum)?;
        counts[i] = v;
        sum += v;
    }
    Ok((sum, counts))
}

// The queues, each starting empty.
#[tactic(auto, using(numbers::specs::Laws::Parts::handed_on_with), unfolding(crate::specs::Queues::counted_queues))]
fn counted_queues(r: &mut Reader<'_>) -> Result<Counted, Refusal>
    ensures read { said_with (λ c. c.queues) result r.new.place ≡ counted_queues r.old.bytes.now r.old.place }
    ensures bytes { r.new.bytes ≡ r.old.bytes }
{
    let count = r.within(1, MOST_QUEUES)?;
    let (sum, messages) = read_counts(r, usize::from(count))?;
    let queues = Queues {
        count,
        sum,
        messages,
        lengths: [0u8; MOST_QUEUES as usize],
        contents: [0u8; STARTING],
    };
    Ok(Counted { queues })
}

// A file that resumes goes on with what waits in the queues.
#[tactic(auto, using(numbers::specs::Laws::Parts::handed_on), unfolding(crate::specs::Queues::read_queues))]
pub(crate) fn read_queues(r: &mut Reader<'_>, resumes: bool) -> Result<Queues, Refusal>
    ensures read { said result r.new.place ≡ read_queues r.old.bytes.now r.old.place resumes }
    ensures bytes { r.new.bytes ≡ r.old.bytes }
{
    let counted = counted_queues(r)?;
    if resumes {
        return read_starting(r, counted);
    }
    Ok(counted.queues)
}
