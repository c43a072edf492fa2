// Whether the configuration of a run's record is inside the map; if not, how far what waits is followed.
ghost use Rattle.replaying_step.specs.Configurations.{config_of};
ghost use Rattle.replaying_step.specs.Inside.{Mapped, Located};

use crate::runs::RunRecord;
use controls::numbering::control_of;
use following::messages::Lost;
use numbers::number::wide;
use replaying_queues::follow::{follow_rings, waiting_in};
use tables::kinds::Reached;
use tables::lookup::{is_final, root_of};
use tables::view::TablesView;

// So many messages of what waits are followed.
#[derive(Clone, Copy, Debug, PartialEq, Eq)]
pub struct Outside(pub usize);

impl RunRecord {
    // The root of its control state is followed through all that waits, queue by queue. Where that leads to a state that is not final, all messages
    // are followed.
    pub fn locate(&self, t: &TablesView<'_>, memory: &[u8]) -> Result<(), Outside>
        requires { Mapped t.now self.now memory.now }
        ensures { Located t.now (config_of t.now.head.machines t.now.head.queues self.now memory.now) result }
    {
        let machines = t.head.machines;
        let queues = t.head.queues;
        let root = root_of(t.roots, control_of(machines, &self.states));
        let count = wide(queues.count);
        match follow_rings(t.arcs, root, memory, &self.heads, &self.lengths, count) {
            Err(Lost(n)) => Err(Outside(n)),
            Ok(s) => {
                if is_final(t.finals, Reached::at(s)) {
                    return Ok(());
                }
                Err(Outside(waiting_in(&self.lengths, count)))
            }
        }
    }
}
