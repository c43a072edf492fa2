// Writing a file from flat bytes, into a lent buffer.
ghost use Rattle.c_tables.specs.Written.{WritesFlat};

use crate::places::{
    ARCS_PLACE, ENTRIES_PLACE, FINALS_PLACE, MACHINES_PLACE, ROOTS_PLACE, ROWS_PLACE, TABLES_LEAST,
};
use crate::taken::head_at;
use tables::tables::MOST_MACHINES;
use tables::view::TablesView;
use writing_file::write::{WriteRefusal, write_parts};

// THE SERVICE on flat bytes: the session file with their tables, at the front of the buffer. The large tables are lent as they lie there; a product of more
// factors than there are machines is not computed.
pub fn write_flat(tables: &[u8], buffer: &mut [u8]) -> Result<usize, WriteRefusal>
    ensures { WritesFlat tables.now buffer.old result buffer.new }
{
    if tables.len() < TABLES_LEAST || MOST_MACHINES < tables[MACHINES_PLACE] {
        return Err(WriteRefusal::NotReadable);
    }
    let view = TablesView {
        head: head_at(tables),
        rows: &tables[ROWS_PLACE..FINALS_PLACE],
        finals: &tables[FINALS_PLACE..ARCS_PLACE],
        arcs: &tables[ARCS_PLACE..ROOTS_PLACE],
        roots: &tables[ROOTS_PLACE..ENTRIES_PLACE],
        entries: &tables[ENTRIES_PLACE..TABLES_LEAST],
    };
    write_parts(&view, buffer)
}
