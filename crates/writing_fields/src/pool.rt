// Field 4, put by a writer.
ghost use Rattle.std.specs.Prelude.{ℕ, ◌+◌, ◌≤◌, ◌<◌, cond, ◌≡◌, eqb, length};
ghost use Rattle.theory_format.specs.Spelled.{arcs, counted, state, pool};
ghost use Rattle.writing_fields.specs.Parts.{row_of, arcs_in};
ghost use Rattle.writing_fields.specs.Writer.{Puts, Room};

use crate::writer::Writer;
use numbers::number::entry;
use tables::tables::ARCS;
use tables::view::TablesView;

// The arcs of a state for the messages below the sum, as far as the table goes.
fn row_of(table: &[u8], i: usize, sum: usize) -> &[u8]
    requires { i < 256 }
    ensures { result.now ≡ row_of table.now i sum }
{
    let first = i * ARCS;
    let rest = &table[first.min(table.len())..];
    &rest[..sum.min(rest.len())]
}

fn one_more(arc: u8, count: u8) -> u8
    requires { count < 255 }
    ensures { result ≡ cond (eqb arc 0) count (count + 1) }
{
    if arc == 0 {
        return count;
    }
    count + 1
}

// How many arcs a row has. The loop has one way on, so that several entries are looked at at once.
fn count_arcs(row: &[u8]) -> u8
    requires { length row.now < 256 }
    ensures { result ≡ length {A = ℕ × ℕ} (arcs_in row.now) }
{
    let mut count: u8 = 0;
    for &arc in row {
        count = one_more(arc, count);
    }
    count
}

// These arcs, each with its message and its target.
fn put_arcs(w: &mut Writer<'_>, row: &[u8])
    requires room { Room w.old 1020 }
    requires row_len_bound { length row.now < 256 }
    ensures { Puts w.old 1020 (arcs (arcs_in row.now)) w.new }
{
    for (m, &arc) in row.iter().enumerate() {
        if arc != 0 {
            w.two(m as u8, arc - 1);
        }
    }
}

fn put_row(w: &mut Writer<'_>, row: &[u8])
    requires room { Room w.old 1022 }
    requires row_len_bound { length row.now < 256 }
    ensures { Puts w.old 1022 (counted (arcs_in row.now)) w.new }
{
    w.number(count_arcs(row));
    put_arcs(w, row);
}

fn put_state(w: &mut Writer<'_>, finals: &[u8], arcs: &[u8], sum: u8, i: usize)
    requires room { Room w.old 1024 }
    requires i_bound { i < 256 }
    ensures { Puts w.old 1024 (state finals.now arcs.now sum i) w.new }
{
    w.number(entry(finals, i));
    put_row(w, row_of(arcs, i, sum as usize));
}

pub(crate) fn put_pool(w: &mut Writer<'_>, t: &TablesView<'_>)
    requires { Room w.old 261122 }
    ensures { Puts w.old 261122 (pool t.now.head.queues.sum (record { count = t.now.head.states; finals = t.now.finals.now; arcs = t.now.arcs.now })) w.new }
{
    let count = t.head.states;
    let sum = t.head.queues.sum;
    w.number(count);
    for i in 0..count as usize {
        put_state(w, t.finals, t.arcs, sum, i);
    }
}
