// Field 3: the transitions, each in a row of the table.
ghost use Rattle.std.specs.Prelude.{◌≡◌, ◌+◌, ◌≤◌, get_or, replicate};
ghost use Rattle.numbers.specs.Said.{said_with};
ghost use Rattle.tables.specs.Limits.{most_controls, most_transitions};
ghost use Rattle.tables.specs.Rows.{row_length, rows_length};
ghost use Rattle.reading_model.specs.Transitions.{read_action, read_transition, read_rows, read_transitions};
ghost use Rattle.reading_model.specs.Lent.{lent_transitions};

use crate::words::read_word;
use numbers::number::entry;
use numbers::reader::Reader;
use numbers::refusal::Refusal;
use tables::kinds::Kind;
use tables::spans::messages_of;
use tables::tables::{
    FROM, KIND, LENGTH, MOST_TRANSITIONS, MOST_WORD, Machines, QUEUE, Queues, ROW, ROWS, TO, WORD,
};

// Fields 1 and 2, within which the transitions lie.
#[derive(Clone, Copy)]
struct Within<'a> {
    machines: &'a Machines,
    queues: &'a Queues,
}

// What a send and a receive go on with.
#[tactic(auto, using(numbers::specs::Laws::Parts::handed_on_with), unfolding(crate::specs::Transitions::read_action))]
fn read_action(
    r: &mut Reader<'_>,
    q: &Queues,
    row: usize,
    rows: &mut [u8; ROWS],
) -> Result<(), Refusal>
    requires { row + row_length ≤ rows_length }
    ensures read { said_with (λ _. rows.new) result r.new.place ≡ read_action r.old.bytes.now r.old.place q.now row rows.old }
    ensures bytes { r.new.bytes ≡ r.old.bytes }
{
    let queue = r.below(usize::from(q.count))?;
    let length = r.within(0, MOST_WORD)?;
    rows[row + QUEUE] = queue;
    rows[row + LENGTH] = length;
    let messages = q.messages;
    let own = messages_of(messages, queue);
    let start = row + WORD;
    read_word(r, q.sum, own, start, start + usize::from(length), rows)
}

// The states of one machine.
fn states_of(m: &Machines, machine: u8) -> usize
    ensures { (result ≡ get_or m.now.states machine 0) × (result ≤ most_controls) }
{
    usize::from(entry(&m.states, usize::from(machine)))
}

// One transition into its row.
#[tactic(auto, using(numbers::specs::Laws::Parts::handed_on_with), unfolding(crate::specs::Transitions::read_transition))]
fn read_transition(
    r: &mut Reader<'_>,
    w: Within<'_>,
    row: usize,
    rows: &mut [u8; ROWS],
) -> Result<(), Refusal>
    requires { row + row_length ≤ rows_length }
    ensures read { said_with (λ _. rows.new) result r.new.place ≡ read_transition r.old.bytes.now r.old.place w.entry.machines.now w.entry.queues.now row rows.old }
    ensures bytes { r.new.bytes ≡ r.old.bytes }
{
    let m = w.machines;
    let machine = r.below(usize::from(m.count))?;
    let states = states_of(m, machine);
    let (from, to) = r.two(states, states)?;
    let kind = r.below(3)?;
    rows[row] = machine;
    rows[row + FROM] = from;
    rows[row + TO] = to;
    rows[row + KIND] = kind;
    match Kind::from(kind) {
        Kind::Local => Ok(()),
        Kind::Send | Kind::Receive => read_action(r, w.queues, row, rows),
    }
}

fn read_rows(
    r: &mut Reader<'_>,
    w: Within<'_>,
    count: u8,
    rows: &mut [u8; ROWS],
) -> Result<(), Refusal>
    requires { count ≤ most_transitions }
    ensures read { said_with (λ _. rows.new) result r.new.place ≡ read_rows r.old.bytes.now r.old.place w.entry.machines.now w.entry.queues.now count 0 rows.old }
    ensures bytes { r.new.bytes ≡ r.old.bytes }
{
    for t in 0..usize::from(count) {
        read_transition(r, w, t * ROW, rows)?;
    }
    Ok(())
}

// How many there are.
#[tactic(auto, using(numbers::specs::Laws::Parts::handed_on_with), unfolding(crate::specs::Transitions::read_transitions))]
pub(crate) fn read_transitions(
    r: &mut Reader<'_>,
    m: &Machines,
    q: &Queues,
    rows: &mut [u8; ROWS],
) -> Result<u8, Refusal>
    requires { rows.old ≡ replicate rows_length 0 }
    ensures read { said_with (λ count. lent_transitions count rows.new) result r.new.place ≡ read_transitions r.old.bytes.now r.old.place m.now q.now }
    ensures bytes { r.new.bytes ≡ r.old.bytes }
{
    let count = r.within(0, MOST_TRANSITIONS)?;
    let w = Within {
        machines: m,
        queues: q,
    };
    read_rows(r, w, count, rows)?;
    Ok(count)
}
