// How the action of a transition parts the contents.
ghost use Rattle.std.specs.Prelude.{◌+◌, ◌<◌, ◌≤◌, length};
ghost use Rattle.tables.specs.Rows.{row_length, queue_at};
ghost use Rattle.checking_items.specs.Cut.{Cuts};
ghost use Rattle.tables.specs.Valid.{QueuesValid};

use checking_pairs::pairs::AFTER;
use tables::kinds::Kind;
use tables::spans::messages_of;
use tables::tables::{KIND, LENGTH, QUEUE, Queues};

// How an action parts the contents: the side it starts on, the first message that is read after it, and how many messages of
// its word are taken out and put in.
#[derive(Clone, Copy, Debug, PartialEq, Eq)]
pub struct Cut {
    pub side: usize,
    pub cut: u8,
    pub out: usize,
    pub into: usize,
}

// The action of the transition whose row begins here.
pub(crate) fn cut_of(q: Queues, rows: &[u8], row: usize) -> Cut
    requires queues_valid { QueuesValid q }
    requires row_length_in_bounds { row + row_length ≤ length rows.now }
    requires row_bound { queue_at rows.now row < q.count }
    ensures { Cuts q rows.now row result }
{
    let messages = q.messages;
    match Kind::from(rows[row + KIND]) {
        Kind::Local => Cut {
            side: AFTER,
            cut: 0,
            out: 0,
            into: 0,
        },
        Kind::Send => {
            let own = messages_of(messages, rows[row + QUEUE]);
            Cut {
                side: 0,
                cut: own.hi as u8,
                out: 0,
                into: usize::from(rows[row + LENGTH]),
            }
        }
        Kind::Receive => {
            let own = messages_of(messages, rows[row + QUEUE]);
            Cut {
                side: 0,
                cut: own.lo as u8,
                out: usize::from(rows[row + LENGTH]),
                into: 0,
            }
        }
    }
}
