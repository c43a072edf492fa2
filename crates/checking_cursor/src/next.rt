// The item after another.
ghost use Rattle.std.specs.Prelude.{List, ℕ, ◌≡◌, ◌+◌, ◌*◌, ◌≤◌, ◌<◌};
ghost use Rattle.tables.specs.Limits.{most_transitions, most_bad};
ghost use Rattle.checking_cursor.specs.Left.{from_step, from_entry, later, goes, most_steps, past_of, Stands};
ghost use Rattle.checking_cursor.specs.Next.{Movable, Sought, Found};

use crate::cursor::Cursor;
use controls::moves::is_at;
use numbers::number::wide;
use tables::head::Head;
use tables::kinds::ControlState;
use tables::tables::ROW;

// The first transition from number `first` on whose machine is in the from-state at control state c.
fn at_control(h: Head, rows: &[u8], c: ControlState, first: usize) -> Option<usize>
    requires movable { Movable h rows.now }
    requires c_lt_product { (c.0 < h.machines.product) × (first ≤ h.transitions) }
    ensures { Sought h rows.now c.0 first result }
{
    for i in first..wide(h.transitions) {
        let m = h.machines;
        if is_at(m, rows, i * ROW, c) {
            return Some(i);
        }
    }
    None
}

// Bad entry b, if there is one.
fn entry_from(h: Head, b: usize) -> Option<Cursor>
    requires { b ≤ most_bad }
    ensures { (rows : List ℕ) → Found h rows (λ S. from_entry S b) (1 + most_steps + b) result }
{
    if b < wide(h.bad) {
        Some(Cursor::Entry(b))
    } else {
        None
    }
}

// The first step from transition `first` of control state `from` on; where there is none, the first bad entry.
fn seek(h: Head, rows: &[u8], from: usize, first: usize) -> Option<Cursor>
    requires movable { Movable h rows.now }
    requires from_lt_product { (from < h.machines.product) × (first ≤ h.transitions) }
    ensures { Found h rows.now (λ S. from_step S from first) (1 + (from * most_transitions + first)) result }
{
    let mut i = first;
    for c in from..h.machines.product {
        let control = ControlState::new(c);
        if let Some(t) = at_control(h, rows, control, i) {
            return Some(Cursor::Step(control, t));
        }
        i = 0;
    }
    entry_from(h, 0)
}

// The item after the one that the cursor stands at. After the last there is none, and none after that.
pub fn next(h: Head, rows: &[u8], at: Option<Cursor>) -> Option<Cursor>
    requires movable { Movable h rows.now }
    requires stands { Stands h rows.now at }
    ensures { Found h rows.now (λ S. later S at) (past_of at) result }
{
    match at? {
        Cursor::Start => seek(h, rows, 0, 0),
        Cursor::Step(c, i) => seek(h, rows, c.0 as usize, i + 1),
        Cursor::Entry(b) => entry_from(h, b + 1),
    }
}

// Whether there is an item where the cursor stands.
pub fn is_going(at: Option<Cursor>) -> bool
    ensures { result ≡ goes at }
{
    at.is_some()
}
