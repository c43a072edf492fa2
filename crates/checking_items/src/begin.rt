// The start: whether what waits then is in the set of the control state that a run begins in.
ghost use Rattle.std.specs.Prelude.{◌≡◌};
ghost use Rattle.reading_file.specs.Session.{tables_in};
ghost use Rattle.checking_items.specs.Begin.{begins_inside};

use controls::begin::first_control;
use following::starting::follow_starting;
use reading_file::session::Session;
use tables::lookup::{is_final, root_of};

// Whether what waits at the start leads to a final state.
pub fn begins_inside(s: &Session<'_>) -> bool
    ensures { result ≡ begins_inside (tables_in s.now) }
{
    let t = &s.tables;
    let c = first_control(t.head.machines);
    let root = root_of(t.roots, c);
    let at = follow_starting(t.arcs, root, t.head.queues);
    is_final(t.finals, at)
}
