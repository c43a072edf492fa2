// Fields 5 and 6, each put by a writer.
ghost use Rattle.std.specs.Prelude.{◌≤◌};
ghost use Rattle.tables.specs.Limits.{most_controls};
ghost use Rattle.theory_format.specs.Spelled.{mapped, bad};
ghost use Rattle.writing_fields.specs.Writer.{Puts, Room};

use crate::writer::Writer;
use numbers::number::entry;
use tables::tables::ENTRY;

pub(crate) fn put_map(w: &mut Writer<'_>, product: usize, roots: &[u8])
    requires room { Room w.old 512 }
    requires product_le_most_controls { product ≤ most_controls }
    ensures { Puts w.old 512 (mapped product (record { roots = roots.entry.now })) w.new }
{
    w.entries(roots, 0, product);
}

pub(crate) fn put_bad(w: &mut Writer<'_>, count: u8, rows: &[u8])
    requires { Room w.old 1022 }
    ensures { Puts w.old 1022 (bad (record { count = count; rows = rows.now })) w.new }
{
    w.number(count);
    for b in 0..count as usize {
        let row = b * ENTRY;
        w.two(entry(rows, row), entry(rows, row + 1));
    }
}
