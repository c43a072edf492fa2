// All fields of a session file, put into a buffer one after the other.
ghost use Rattle.std.specs.Prelude.{◌≡◌, ◌≤◌};
ghost use Rattle.tables.specs.Limits.{most_machines, most_controls};
ghost use Rattle.tables.specs.View.{viewed};
ghost use Rattle.numbers.specs.Put.{Put};
ghost use Rattle.theory_format.specs.Spelled.{spelled};
ghost use Rattle.writing_fields.specs.Parts.{ample_place, diagrams};
ghost use Rattle.writing_fields.specs.Writer.{Puts, Room};

use crate::moves::{put_machines, put_queues, put_transitions};
use crate::pool::put_pool;
use crate::sets::{put_bad, put_map};
use crate::writer::Writer;
use tables::starting::waits;
use tables::view::TablesView;

// Fields 4 to 6.
fn put_diagrams(w: &mut Writer<'_>, t: &TablesView<'_>)
    requires room { Room w.old 262656 }
    requires product_le_most_controls { t.now.head.machines.product ≤ most_controls }
    ensures { Puts w.old 262656 (diagrams t.now.head t.now.finals.now t.now.arcs.now t.now.roots.now t.now.entries.now) w.new }
{
    put_pool(w, t);
    put_map(w, t.head.machines.product, t.roots);
    put_bad(w, t.head.bad, t.entries);
}

fn put_fields(w: &mut Writer<'_>, t: &TablesView<'_>)
    requires room { Room w.old ample_place }
    requires count_le_most_machines { t.now.head.machines.count ≤ most_machines }
    requires product_le_most_controls { t.now.head.machines.product ≤ most_controls }
    ensures put { Put w.old.bytes.now w.old.place ample_place (spelled (viewed t.now)) w.new.bytes.now w.new.place }
    ensures same_reference { w.new.bytes.ghost_name ≡ w.old.bytes.ghost_name }
{
    let h = t.head;
    put_machines(w, waits(h.queues.lengths), h.machines);
    put_queues(w, h.queues);
    put_transitions(w, h.transitions, t.rows);
    put_diagrams(w, t);
}

// Answers the file's length, whether the buffer has room for it or not.
pub fn put_file(s: &mut [u8], t: &TablesView<'_>) -> usize
    requires count_le_most_machines { t.now.head.machines.count ≤ most_machines }
    requires product_le_most_controls { t.now.head.machines.product ≤ most_controls }
    ensures { Put s.old 0 ample_place (spelled (viewed t.now)) s.new result }
{
    let mut w = Writer { bytes: s, place: 0 };
    put_fields(&mut w, t);
    w.place
}
