// What waits in the queues at the start, put by a writer.
ghost use Rattle.std.specs.Prelude.{◌+◌, ◌*◌, ◌≤◌, ◌<◌};
ghost use Rattle.theory_format.specs.Spelled.{each, content};
ghost use Rattle.writing_fields.specs.Parts.{waiting};
ghost use Rattle.writing_fields.specs.Writer.{Puts, Room};

use crate::writer::Writer;
use numbers::number::entry;
use tables::starting::waits;
use tables::tables::{MOST_STARTING, Queues};

// Of one queue: how many messages, and these.
fn put_content(w: &mut Writer<'_>, lengths: &[u8], table: &[u8], i: usize)
    requires room { Room w.old 512 }
    requires i_bound { i < 256 }
    ensures { Puts w.old 512 (content lengths.now table.now i) w.new }
{
    let length = entry(lengths, i);
    w.number(length);
    w.entries(table, i * MOST_STARTING as usize, length as usize);
}

// Of so many, queue by queue.
fn put_contents(w: &mut Writer<'_>, lengths: &[u8], table: &[u8], count: usize)
    requires room { Room w.old (512 * count) }
    requires count_bound { count < 256 }
    ensures { Puts w.old (512 * count) (each (content lengths.now table.now) count 0) w.new }
{
    for i in 0..count {
        put_content(w, lengths, table, i);
    }
}

// Where no queue starts with a message, nothing is put: the file has the old form.
pub(crate) fn put_waiting(w: &mut Writer<'_>, q: Queues)
    requires { Room w.old 130560 }
    ensures { Puts w.old 130560 (waiting q) w.new }
{
    if waits(q.lengths) {
        put_contents(w, &q.lengths, &q.contents, q.count as usize);
    }
}
