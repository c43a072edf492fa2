// Writing tables out, into a lent buffer.
ghost use Rattle.std.specs.Prelude.{◌≡◌};
ghost use Rattle.reading_file.specs.File.{read_file};
ghost use Rattle.tables.specs.View.{viewed};
ghost use Rattle.writing_file.specs.Write.{gives, refusal_number, Writes};

use comparison::same::same_tables;
use numbers::put::put_word;
use numbers::refusal::{BUFFER_SHORT, MOST_BYTES, NOT_READABLE};
use reading_file::reading::read_into;
use tables::head::Head;
use tables::kinds::DiagramState;
use tables::tables::{MOST_CONTROLS, MOST_MACHINES, POOL_ARCS, ROWS, Tables};
use tables::view::TablesView;
use writing_fields::file::put_file;

// Why no bytes were written: no file is read into these tables, or the buffer is shorter than the file.
#[derive(Clone, Copy, Debug, PartialEq, Eq)]
pub enum WriteRefusal {
    NotReadable,
    TooShort,
}

impl WriteRefusal {
    // The number of document 01, table "refusals".
    pub fn number(self) -> usize
        ensures { result ≡ refusal_number self }
    {
        match self {
            WriteRefusal::NotReadable => NOT_READABLE,
            WriteRefusal::TooShort => BUFFER_SHORT,
        }
    }
}

// Are these bytes read into these tables?
fn gives(s: &[u8], t: &TablesView<'_>) -> bool
    ensures { result ≡ gives (read_file s.now) (viewed t.now) }
{
    let mut rows = [0u8; ROWS];
    let mut finals = [0u8; DiagramState::LIMIT];
    let mut arcs = [0u8; POOL_ARCS];
    let Ok(read) = read_into(s, &mut rows, &mut finals, &mut arcs) else {
        return false;
    };
    let again = TablesView {
        head: read.head,
        rows: &rows,
        finals: &finals,
        arcs: &arcs,
        roots: &read.sets.map.roots,
        entries: &read.sets.bad.rows,
    };
    same_tables(t, &again)
}

// Writes tables that come in parts: the large ones lie where the caller has them. They are spelled into bytes of our own first, since the buffer is touched
// by nothing but a file that is read into these tables. Answers how many bytes that is.
pub fn write_parts(t: &TablesView<'_>, buffer: &mut [u8]) -> Result<usize, WriteRefusal>
    ensures { Writes (viewed t.now) buffer.old result buffer.new }
{
    let machines = t.head.machines;
    if MOST_MACHINES < machines.count || MOST_CONTROLS < machines.product {
        return Err(WriteRefusal::NotReadable);
    }
    let mut bytes = [0u8; MOST_BYTES];
    let n = put_file(&mut bytes, t);
    if MOST_BYTES < n || !gives(&bytes[..n], t) {
        return Err(WriteRefusal::NotReadable);
    }
    if buffer.len() < n {
        return Err(WriteRefusal::TooShort);
    }
    Ok(put_word(buffer, 0, &bytes[..n]))
}

// THE SERVICE: the session file with these tables, at the front of the buffer.
pub fn write(t: Tables, buffer: &mut [u8]) -> Result<usize, WriteRefusal>
    ensures { Writes t buffer.old result buffer.new }
{
    let view = TablesView {
        head: Head {
            machines: t.machines,
            queues: t.queues,
            transitions: t.transitions.count,
            states: t.pool.count,
            bad: t.bad.count,
        },
        rows: &t.transitions.rows,
        finals: &t.pool.finals,
        arcs: &t.pool.arcs,
        roots: &t.map.roots,
        entries: &t.bad.rows,
    };
    write_parts(&view, buffer)
}
