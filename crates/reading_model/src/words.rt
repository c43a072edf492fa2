// Words of messages, all of one queue: of a transition, or waiting in a queue at the start.
ghost use Rattle.std.specs.Prelude.{◌≡◌, ◌-◌, ◌≤◌, length};
ghost use Rattle.numbers.specs.Said.{said, said_with};
ghost use Rattle.reading_model.specs.Words.{read_message, read_word};

use numbers::reader::Reader;
use numbers::refusal::Refusal;
use tables::spans::Span;

// A message below the sum, of the queue with these messages.
#[tactic(auto, using(numbers::specs::Laws::Parts::handed_on), unfolding(crate::specs::Words::read_message))]
fn read_message(r: &mut Reader<'_>, sum: u8, own: Span) -> Result<u8, Refusal>
    ensures read { said result r.new.place ≡ read_message r.old.bytes.now r.old.place sum own.lo own.hi }
    ensures bytes { r.new.bytes ≡ r.old.bytes }
{
    let at = r.place;
    let m = r.below(usize::from(sum))?;
    let raw = usize::from(m);
    if raw < own.lo || own.hi <= raw {
        return Err(Refusal::OtherQueue(at));
    }
    Ok(m)
}

// A word into a table's entries from start on: the table of the transitions, or the shorter one of what waits at the start.
pub(crate) fn read_word(
    r: &mut Reader<'_>,
    sum: u8,
    own: Span,
    start: usize,
    end: usize,
    table: &mut [u8],
) -> Result<(), Refusal>
    requires start_le_end { start ≤ end }
    requires end_in_bounds { end ≤ length table.old }
    ensures read { said_with (λ _. table.new) result r.new.place ≡ read_word r.old.bytes.now r.old.place sum own.lo own.hi (end - start) start table.old }
    ensures bytes { r.new.bytes ≡ r.old.bytes }
{
    for j in start..end {
        table[j] = read_message(r, sum, own)?;
    }
    Ok(())
}
