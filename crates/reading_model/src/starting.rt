// What waits in the queues at the start, in a file that resumes.
ghost use Rattle.std.specs.Prelude.{◌≡◌, ◌<◌, replicate};
ghost use Rattle.numbers.specs.Said.{said, said_with};
ghost use Rattle.tables.specs.Limits.{most_queues};
ghost use Rattle.tables.specs.Starting.{starting_length};
ghost use Rattle.reading_model.specs.Queues.{read_content, read_contents, read_starting};
ghost use Rattle.reading_model.specs.Lent.{lent_contents};

use crate::queues::Counted;
use crate::words::read_word;
use numbers::reader::Reader;
use numbers::refusal::Refusal;
use tables::spans::messages_of;
use tables::starting::waits;
use tables::tables::{MOST_QUEUES, MOST_STARTING, Queues, STARTING};

// How many messages each queue starts with, and these.
type Lengths = [u8; MOST_QUEUES as usize];

type Contents = [u8; STARTING];

// The contents of one queue: how many messages, and these.
#[tactic(auto, using(numbers::specs::Laws::Parts::handed_on_with), unfolding(crate::specs::Queues::read_content))]
fn read_content(
    r: &mut Reader<'_>,
    q: &Queues,
    i: u8,
    lengths: &mut Lengths,
    contents: &mut Contents,
) -> Result<(), Refusal>
    requires { i < most_queues }
    ensures read { said_with (λ _. lent_contents lengths.new contents.new) result r.new.place ≡ read_content r.old.bytes.now r.old.place q.now i (lent_contents lengths.old contents.old) }
    ensures bytes { r.new.bytes ≡ r.old.bytes }
{
    let length = r.within(0, MOST_STARTING)?;
    lengths[usize::from(i)] = length;
    let messages = q.messages;
    let own = messages_of(messages, i);
    let start = usize::from(i) * usize::from(MOST_STARTING);
    read_word(r, q.sum, own, start, start + usize::from(length), contents)
}

// The contents of every queue, one after the other.
fn read_contents(r: &mut Reader<'_>, c: &Counted) -> Result<(Lengths, Contents), Refusal>
    ensures read { said result r.new.place ≡ read_contents r.old.bytes.now r.old.place c.now.queues c.now.queues.count 0 (replicate most_queues 0, replicate starting_length 0) }
    ensures bytes { r.new.bytes ≡ r.old.bytes }
{
    let mut lengths = [0u8; MOST_QUEUES as usize];
    let mut contents = [0u8; STARTING];
    for i in 0..c.queues.count {
        read_content(r, &c.queues, i, &mut lengths, &mut contents)?;
    }
    Ok((lengths, contents))
}

// The queues with what waits in them. Something must wait: with all queues empty a session would have two forms.
#[tactic(auto, using(numbers::specs::Laws::Parts::handed_on), unfolding(crate::specs::Queues::read_starting))]
pub(crate) fn read_starting(r: &mut Reader<'_>, c: Counted) -> Result<Queues, Refusal>
    ensures read { said result r.new.place ≡ read_starting r.old.bytes.now r.old.place c.queues }
    ensures bytes { r.new.bytes ≡ r.old.bytes }
{
    let (lengths, contents) = read_contents(r, &c)?;
    if !waits(lengths) {
        return Err(Refusal::StartsEmpty);
    }
    Ok(Queues {
        lengths,
        contents,
        ..c.queues
    })
}
