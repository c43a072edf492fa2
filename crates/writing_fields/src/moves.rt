// Fields 1 to 3, what moves, each put by a writer.
ghost use Rattle.std.specs.Prelude.{◌≤◌, ◌≡◌};
ghost use Rattle.tables.specs.Limits.{most_machines};
ghost use Rattle.theory_format.specs.Spelled.{first_number, machines, queues, action, transition, transitions};
ghost use Rattle.writing_fields.specs.Parts.{kind};
ghost use Rattle.writing_fields.specs.Writer.{Puts, Room};

use crate::starting::put_waiting;
use crate::writer::Writer;
use numbers::number::entry;
use tables::tables::{FROM, KIND, LENGTH, MOST_MACHINES, Machines, QUEUE, Queues, ROW, TO, WORD};

// How many machines there are, and whether the file resumes, in one number.
fn first_of(resumes: bool, count: u8) -> u8
    requires { count ≤ most_machines }
    ensures { result ≡ first_number resumes count }
{
    if resumes {
        count + MOST_MACHINES
    } else {
        count
    }
}

pub(crate) fn put_machines(w: &mut Writer<'_>, resumes: bool, m: Machines)
    requires room { Room w.old 1022 }
    requires count_le_most_machines { m.count ≤ most_machines }
    ensures { Puts w.old 1022 (machines resumes m) w.new }
{
    let count = m.count as usize;
    w.number(first_of(resumes, m.count));
    w.entries(&m.states, 0, count);
    w.entries(&m.starts, 0, count);
}

// What waits in them stands after their messages.
pub(crate) fn put_queues(w: &mut Writer<'_>, q: Queues)
    requires { Room w.old 131072 }
    ensures { Puts w.old 131072 (queues q) w.new }
{
    w.number(q.count);
    w.entries(&q.messages, 0, q.count as usize);
    put_waiting(w, q);
}

// What a row with a queue goes on with: the queue, the word's length and its messages.
fn put_action(w: &mut Writer<'_>, rows: &[u8], row: usize)
    requires room { Room w.old 514 }
    requires row_bound { row ≤ 10000 }
    ensures { Puts w.old 514 (action rows.now row) w.new }
{
    let length = entry(rows, row + LENGTH);
    w.number(entry(rows, row + QUEUE));
    w.number(length);
    w.entries(rows, row + WORD, length as usize);
}

// The kind, and the action of kinds 1 and 2. The byte goes out as it is, whatever it is, so no `Kind` is made of it to be asked one thing.
fn put_kind(w: &mut Writer<'_>, rows: &[u8], row: usize)
    requires room { Room w.old 516 }
    requires row_bound { row ≤ 10000 }
    ensures { Puts w.old 516 (kind rows.now row) w.new }
{
    let kind = entry(rows, row + KIND);
    w.number(kind);
    if kind != 0 {
        put_action(w, rows, row);
    }
}

fn put_transition(w: &mut Writer<'_>, rows: &[u8], row: usize)
    requires room { Room w.old 522 }
    requires row_bound { row ≤ 10000 }
    ensures { Puts w.old 522 (transition rows.now row) w.new }
{
    w.number(entry(rows, row));
    w.number(entry(rows, row + FROM));
    w.number(entry(rows, row + TO));
    put_kind(w, rows, row);
}

pub(crate) fn put_transitions(w: &mut Writer<'_>, count: u8, rows: &[u8])
    requires { Room w.old 133112 }
    ensures { Puts w.old 133112 (transitions (record { count = count; rows = rows.now })) w.new }
{
    w.number(count);
    for t in 0..count as usize {
        put_transition(w, rows, t * ROW);
    }
}
