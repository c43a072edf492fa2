// A transition at a control state: whether its machine is in the from-state, and the control state that it leads to.
ghost use Rattle.std.specs.Prelude.{◌+◌, ◌<◌, ◌≤◌, length, get_or};
ghost use Rattle.tables.specs.Rows.{row_length, machine_at, to_at};
ghost use Rattle.controls.specs.Controls.{IsAt, Moved};
ghost use Rattle.tables.specs.Valid.{MachinesValid};

use crate::parting::part_at;
use numbers::number::wide;
use tables::kinds::ControlState;
use tables::tables::{FROM, Machines, TO};

// Whether the machine of the transition is in its from-state.
pub fn is_at(m: Machines, rows: &[u8], row: usize, c: ControlState) -> bool
    requires machines_valid { MachinesValid m }
    requires row_length_in_bounds { row + row_length ≤ length rows.now }
    requires row_bound { machine_at rows.now row < m.count }
    requires c_lt_product { c.0 < m.product }
    ensures { IsAt m rows.now row c.0 result }
{
    let p = part_at(m, c, rows[row]);
    p.rest / p.stride == wide(rows[row + FROM])
}

// The control state that the transition leads to.
pub fn moved(m: Machines, rows: &[u8], row: usize, c: ControlState) -> ControlState
    requires machines_valid { MachinesValid m }
    requires row_length_in_bounds { row + row_length ≤ length rows.now }
    requires row_bound { machine_at rows.now row < m.count }
    requires row_bound_2 { to_at rows.now row < get_or m.states (machine_at rows.now row) 0 }
    requires c_lt_product { c.0 < m.product }
    ensures { Moved m rows.now row c.0 result.0 }
{
    let p = part_at(m, c, rows[row]);
    ControlState::new(p.base + (wide(rows[row + TO]) * p.stride + p.rest % p.stride))
}
