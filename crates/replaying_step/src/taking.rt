// A transition taken on a run's record: its word goes to the end of its queue or leaves its front, and its machine moves.
ghost use Rattle.replaying_step.specs.Taking.{TakeAsked, Tries, ShiftAsked, Sends, Receives, Acts};

use crate::runs::RunRecord;
use replaying_queues::QUEUE_ROOM;
use replaying_queues::ring::QueueRing;
use tables::tables::{FROM, KIND, LENGTH, QUEUE, ROW, TO, WORD};

// Why a transition is not taken.
#[derive(Clone, Copy, Debug, PartialEq, Eq)]
pub enum Untaken {
    // its machine is in another state, or its queue does not begin with its word
    NotPossible,
    // its queue would pass its room
    NoRoom,
}

// Kinds of transition by their numbers; a receive is the third. `Kind::from` was tried in `shift`: it takes twelve instructions more a step,
// and in one library that was measured the row of up to 16 waiting messages came to 1.03 of the reference.
const LOCAL: u8 = 0;

const SEND: u8 = 1;

impl RunRecord {
    // The word of the row put at the end of its queue.
    fn send(&mut self, rows: &[u8], row: usize, memory: &mut [u8]) -> Result<(), Untaken>
        requires { ShiftAsked rows.now row self.old memory.old }
        ensures { Sends rows.now row self.old memory.old result self.new memory.new }
    {
        let q = rows[row + QUEUE] as usize;
        let n = rows[row + LENGTH] as usize;
        let count = self.lengths[q];
        if QUEUE_ROOM < count + n {
            return Err(Untaken::NoRoom);
        }
        let ring = QueueRing::of(q, &self.heads, &self.lengths);
        ring.put(memory, &rows[row + WORD..row + WORD + n]);
        self.lengths[q] = count + n;
        Ok(())
    }

    // The word of the row taken from the front of its queue.
    fn receive(&mut self, rows: &[u8], row: usize, memory: &[u8]) -> Result<(), Untaken>
        requires { ShiftAsked rows.now row self.old memory.now }
        ensures { Receives rows.now row self.old memory.now result self.new }
    {
        let q = rows[row + QUEUE] as usize;
        let n = rows[row + LENGTH] as usize;
        let ring = QueueRing::of(q, &self.heads, &self.lengths);
        if !ring.begins(memory, &rows[row + WORD..row + WORD + n]) {
            return Err(Untaken::NotPossible);
        }
        self.heads[q] = (ring.head + n) % QUEUE_ROOM;
        self.lengths[q] = ring.count - n;
        Ok(())
    }

    // What the transition of the row does to its queue.
    fn shift(&mut self, rows: &[u8], row: usize, memory: &mut [u8]) -> Result<(), Untaken>
        requires { ShiftAsked rows.now row self.old memory.old }
        ensures { Acts rows.now row self.old memory.old result self.new memory.new }
    {
        match rows[row + KIND] {
            LOCAL => Ok(()),
            SEND => self.send(rows, row, memory),
            _ => self.receive(rows, row, memory),
        }
    }

    // Transition i taken, or the record and the memory as they were.
    pub fn take(&mut self, rows: &[u8], memory: &mut [u8], i: usize) -> Result<(), Untaken>
        requires { TakeAsked rows.now self.old memory.old i }
        ensures { Tries rows.now i self.old memory.old result self.new memory.new }
    {
        let row = i * ROW;
        let machine = rows[row] as usize;
        if self.states[machine] != rows[row + FROM] {
            return Err(Untaken::NotPossible);
        }
        self.shift(rows, row, memory)?;
        self.states[machine] = rows[row + TO];
        Ok(())
    }
}
