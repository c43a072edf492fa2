// The form of the end: what waits in each queue stands at its front, and the record has no heads.
ghost use Rattle.replaying_step.specs.Configurations.{Settleable, Settles};

use crate::runs::RunRecord;
use numbers::number::wide;
use replaying_queues::settle::settle_queues;
use tables::tables::{MOST_QUEUES, Queues};

impl RunRecord {
    pub fn settle(&mut self, queues: Queues, memory: &mut [u8])
        requires { Settleable queues self.old memory.old }
        ensures { Settles queues self.old memory.old self.new memory.new }
    {
        settle_queues(memory, &self.heads, &self.lengths, wide(queues.count));
        self.heads = [0usize; MOST_QUEUES as usize];
    }
}
