// The machines and queues of no model, which stand beside a refusal.
ghost use Rattle.std.specs.Prelude.{◌≡◌};
ghost use Rattle.tables.specs.Empty.{empty_machines, empty_queues};

use crate::tables::{MOST_QUEUES, Machines, Queues, STARTING};

pub fn empty_machines() -> Machines
    ensures { result ≡ empty_machines }
{
    Machines::default()
}

pub fn empty_queues() -> Queues
    ensures { result ≡ empty_queues }
{
    Queues {
        count: 0,
        sum: 0,
        messages: [0u8; MOST_QUEUES as usize],
        lengths: [0u8; MOST_QUEUES as usize],
        contents: [0u8; STARTING],
    }
}
