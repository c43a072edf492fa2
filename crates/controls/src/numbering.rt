// The number of the control state in which the machines are in given states.
ghost use Rattle.std.specs.Prelude.{◌≡◌, ◌+◌, take};
ghost use Rattle.theory_model.specs.Model.{number};
ghost use Rattle.theory_model.specs.Session.{States};
ghost use Rattle.controls.specs.Controls.{sizes_of, Numberable, Numbering};
ghost use Rattle.tables.specs.Valid.{MachinesValid};

use numbers::number::wide;
use tables::kinds::ControlState;
use tables::tables::{MOST_MACHINES, Machines};

// The number sum of the machines before number i, with machine i taken in if there is one.
fn with_machine(m: &Machines, at: &[u8; MOST_MACHINES as usize], i: usize, sum: usize) -> usize
    requires numberable { Numberable m.now.states at.now m.now.count }
    requires numbering { Numbering m.now.states at.now m.now.count i sum }
    ensures { Numbering m.now.states at.now m.now.count (i + 1) result }
{
    if i < wide(m.count) {
        sum * wide(m.states[i]) + wide(at[i])
    } else {
        sum
    }
}

// The control state in which each machine is in the state given for it; machine 0 is most significant. A loop over so few machines costs more than its
// work, and each step of a replay asks.
pub fn control_of(m: Machines, at: &[u8; MOST_MACHINES as usize]) -> ControlState
    requires machines_valid { MachinesValid m }
    requires states { States (sizes_of m) (take m.count at.now) }
    ensures { result.0 ≡ number (sizes_of m) (take m.count at.now) }
{
    let two = with_machine(&m, at, 1, wide(at[0]));
    let three = with_machine(&m, at, 2, two);
    ControlState(with_machine(&m, at, 3, three) as u8)
}
