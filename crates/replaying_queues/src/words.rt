// Words at a ring: put in after the messages that wait, and asked for at their front.
ghost use Rattle.std.specs.Prelude.{◌≡◌, ◌+◌, ◌*◌, ◌≤◌, length};
ghost use Rattle.theory_model.specs.Model.{strip};
ghost use Rattle.theory_replay.specs.Rules.{room};
ghost use Rattle.replaying_queues.specs.Ring.{waiting, put_round, began};
ghost use Rattle.replaying_queues.specs.Lent.{Stands};

use crate::QUEUE_ROOM;
use crate::ring::QueueRing;

impl QueueRing {
    // The word put into the ring behind what waits. Places are taken round the ring. Most words have one message, for which a loop costs more
    // than its work, here and below.
    pub fn put(self, memory: &mut [u8], word: &[u8])
        requires room_in_bounds { self.base + room ≤ length memory.old }
        requires from_bound { self.head + self.count ≤ 2 * room }
        ensures { memory.new ≡ put_round memory.old self.base (self.head + self.count) word.now }
    {
        let base = self.base;
        let from = self.head + self.count;
        if word.len() == 1 {
            memory[base + from % QUEUE_ROOM] = word[0];
            return;
        }
        for (i, m) in word.iter().enumerate() {
            memory[base + (from + i) % QUEUE_ROOM] = *m;
        }
    }

    // Whether what waits begins with the word. All messages are compared, whatever the first ones say: without a way out of the loop several
    // are compared at once.
    pub fn begins(self, memory: &[u8], word: &[u8]) -> bool
        requires { Stands memory.now self }
        ensures { result ≡ began (strip word.now (waiting memory.now self.base self.head self.count)) }
    {
        if self.count < word.len() {
            return false;
        }
        if word.len() == 1 {
            return word[0] == memory[self.base + self.head];
        }
        let mut same = true;
        for (i, m) in word.iter().enumerate() {
            if memory[self.base + (self.head + i) % QUEUE_ROOM] != *m {
                same = false;
            }
        }
        same
    }
}
