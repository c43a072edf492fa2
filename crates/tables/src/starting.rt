// What waits in the queues at the start.
ghost use Rattle.std.specs.Prelude.{◌≡◌};
ghost use Rattle.tables.specs.Starting.{waits};

use crate::tables::MOST_QUEUES;

// Does some queue start with a message?
pub fn waits(lengths: [u8; MOST_QUEUES as usize]) -> bool
    ensures { result ≡ waits lengths }
{
    for length in lengths {
        if length != 0 {
            return true;
        }
    }
    false
}
