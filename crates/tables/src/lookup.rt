// Lookup in the tables that all diagrams share: the root of a control state, the arc of a state, final marks.
ghost use Rattle.std.specs.Prelude.{◌≡◌, ◌+◌, ◌*◌, ◌≤◌, ◌<◌, length, get_or};
ghost use Rattle.tables.specs.Limits.{most_pool, most_messages};
ghost use Rattle.tables.specs.Kinds.{reached_of};
ghost use Rattle.tables.specs.Pool.{arc_from, arc_at};
ghost use Rattle.tables.specs.Said.{said_arc};
ghost use Rattle.tables.specs.Lookup.{final_at, ArcsSmall, RootAt, AlongTo};

use crate::kinds::{ControlState, DiagramState, Message, Reached};
use crate::tables::ARCS;
use numbers::number::{entry, wide};

// The root of a control state; nowhere if it has none.
pub fn root_of(roots: &[u8], c: ControlState) -> Reached
    requires { get_or roots.now c.0 0 ≤ most_pool }
    ensures { RootAt roots.now c.0 result.0 }
{
    let root = entry(roots, wide(c.0));
    if root == 0 {
        return Reached::nowhere();
    }
    Reached::at(DiagramState(root - 1))
}

// Where the arc for a message leads, of the state whose arcs begin at this row, if there is one. The entry is in the table, so a walk makes no test for its end; it is looked up
// in the table's part from the message on: the message is there before the row is, so nothing is added to a row that had to be waited for.
pub fn arc_from(arcs: &[u8], row: usize, m: Message) -> Option<DiagramState>
    requires { row + m.0 < length arcs.now }
    ensures { said_arc result ≡ arc_from arcs.now row m.0 }
{
    let line = &arcs[m.0 as usize..];
    let target = line[row];
    if target == 0 {
        return None;
    }
    Some(DiagramState(target - 1))
}

// Where the arc of a state for a message leads, if there is one.
pub fn arc_at(arcs: &[u8], s: DiagramState, m: Message) -> Option<DiagramState>
    requires { s.0 * most_messages + m.0 < length arcs.now }
    ensures { said_arc result ≡ arc_at arcs.now s.0 m.0 }
{
    arc_from(arcs, wide(s.0) * ARCS, m)
}

// One message more. A missing arc has nowhere to go, and nowhere stays nowhere.
pub fn along(arcs: &[u8], from: Reached, m: Message) -> Reached
    requires arcs_small { ArcsSmall arcs.now }
    requires from_le_most_pool { from.0 ≤ most_pool }
    requires m_lt_most_messages { m.0 < most_messages }
    ensures { AlongTo arcs.now from.0 m.0 result.0 }
{
    if from.is_nowhere() {
        return Reached::nowhere();
    }
    let Some(next) = arc_at(arcs, from.state(), m) else {
        return Reached::nowhere();
    };
    Reached::at(next)
}

// Whether a word that has led there is accepted.
pub fn is_final(finals: &[u8], at: Reached) -> bool
    requires finals_len { length finals.now ≡ most_pool }
    requires at_le_most_pool { at.0 ≤ most_pool }
    ensures { result ≡ final_at finals.now (reached_of at.0) }
{
    if at.is_nowhere() {
        return false;
    }
    finals[at.0 as usize] == 1
}
