// The control state that a run begins in.
ghost use Rattle.std.specs.Prelude.{◌≡◌};
ghost use Rattle.theory_model.specs.Model.{number};
ghost use Rattle.controls.specs.Controls.{sizes_of, starts_of};
ghost use Rattle.tables.specs.Valid.{MachinesValid};

use crate::numbering::control_of;
use tables::kinds::ControlState;
use tables::tables::Machines;

// The control state of the starting states.
pub fn first_control(m: Machines) -> ControlState
    requires { MachinesValid m }
    ensures { result.0 ≡ number (sizes_of m) (starts_of m) }
{
    control_of(m, &m.starts)
}
