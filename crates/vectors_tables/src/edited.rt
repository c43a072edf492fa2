// Writing from tables of a file that were edited: entry by entry where they lie flat, or with another product beside them.
ghost use Rattle.std.specs.Prelude.{◌≤◌, length};
ghost use Rattle.c_tables.specs.Flat.{tables_least};

use crate::empty::empty_tables;
use c_tables::places::TABLES_LEAST;
use c_tables::put::put_flat;
use c_tables::write::write_flat;
use numbers::number::entry;
use reading_file::reading::read;
use tables::tables::{Machines, Tables};
use writing_file::write::{WriteRefusal, write};

// An edit: the entry's place in two bytes, low byte first, and its value. Bytes that are missing are 0.
const EDIT: usize = 3;

// The tables of a file that is read; after a refusal nothing is put.
fn put_read(tables: &mut [u8], file: &[u8])
    requires { tables_least ≤ length tables.old }
{
    if let Ok(t) = read(file) {
        put_flat(tables, t);
    }
}

// The edits in turn; one past the end of the tables does nothing.
fn edit_all(tables: &mut [u8], edits: &[u8]) {
    for edit in edits.chunks(EDIT) {
        let at = u16::from_le_bytes([entry(edit, 0), entry(edit, 1)]) as usize;
        if at < tables.len() {
            tables[at] = entry(edit, 2);
        }
    }
}

pub(crate) fn write_edited(
    file: &[u8],
    edits: &[u8],
    buffer: &mut [u8],
) -> Result<usize, WriteRefusal> {
    let mut tables = [0u8; TABLES_LEAST];
    put_read(&mut tables, file);
    edit_all(&mut tables, edits);
    write_flat(&tables, buffer)
}

// After a refusal every entry of the tables is 0.
pub(crate) fn write_with(
    file: &[u8],
    product: usize,
    buffer: &mut [u8],
) -> Result<usize, WriteRefusal> {
    let t = match read(file) {
        Ok(t) => t,
        Err(_) => empty_tables(),
    };
    let machines = Machines {
        product,
        ..t.machines
    };
    write(Tables { machines, ..t }, buffer)
}
