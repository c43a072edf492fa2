// The record that a replay begins with.
ghost use Rattle.std.specs.Prelude.{◌≡◌};
ghost use Rattle.replaying_trace.specs.Run.{starts_with};

use replaying_queues::laying::starting_lengths;
use replaying_step::runs::RunRecord;
use tables::tables::{MOST_QUEUES, Machines, Queues};

// The starting states, and how much waits in each queue at the start.
pub(crate) fn starting_record(machines: Machines, queues: Queues) -> RunRecord
    ensures { result ≡ starts_with machines queues }
{
    let states = machines.starts;
    let lengths = starting_lengths(queues);
    RunRecord {
        states,
        heads: [0usize; MOST_QUEUES as usize],
        lengths,
    }
}
