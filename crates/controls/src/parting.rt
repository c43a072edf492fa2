// A control state parted at a machine.
ghost use Rattle.std.specs.Prelude.{◌≡◌, ◌<◌, ◌≤◌, drop};
ghost use Rattle.theory_model.specs.Model.{sizes_product};
ghost use Rattle.controls.specs.Controls.{sizes_of, Located, Stepped};
ghost use Rattle.tables.specs.Valid.{MachinesValid};

use numbers::number::wide;
use tables::kinds::ControlState;
use tables::tables::Machines;

// A control state parted at a machine: what the machines before it give, what is left, and how many control states one state
// of the machine takes.
#[derive(Clone, Copy, Debug, PartialEq, Eq)]
pub struct Parted {
    pub base: usize,
    pub rest: usize,
    pub stride: usize,
}

// The product of the states of the machines from number i on.
fn product_from(m: &Machines, i: usize) -> usize
    requires stepped { Stepped m.now.states m.now.count }
    requires i_le_count { i ≤ m.now.count }
    ensures { result ≡ sizes_product (drop i (sizes_of m.now)) }
{
    let mut product = 1;
    for j in (i..wide(m.count)).rev() {
        product *= wide(m.states[j]);
    }
    product
}

// The control state of machines that were read, parted at one of them.
pub fn part_at(m: Machines, c: ControlState, machine: u8) -> Parted
    requires machines_valid { MachinesValid m }
    requires c_lt_product { c.0 < m.product }
    requires machine_lt_count { machine < m.count }
    ensures { Located (sizes_of m) c.0 machine result }
{
    let mut base = 0;
    let mut rest = wide(c.0);
    for i in 0..wide(machine) {
        let stride = product_from(&m, i + 1);
        base += rest / stride * stride;
        rest %= stride;
    }
    let stride = product_from(&m, wide(machine) + 1);
    Parted { base, rest, stride }
}
