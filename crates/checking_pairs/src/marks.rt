// The pairs that a walk has found, in lent tables: marking one, and clearing what was marked.
ghost use Rattle.std.specs.Prelude.{◌-◌, ◌≤◌, ◌<◌};
ghost use Rattle.std.proofs.Math.Option.{some};
ghost use Rattle.checking_pairs.specs.Pairs.{most_codes, decode};
ghost use Rattle.checking_pairs.specs.Marks.{Tables, Pushed, Blank};
ghost use Rattle.checking_pairs.specs.Kept.{Kept};

// What holds of the tables stays a clause of each function: the check does not cover a ghost field beside a `&mut`.
#[derive(Drop)]
pub struct Marks<'a> {
    // At the number of a pair that was found 1 more than the place in the queue that it was found from; else 0.
    pub seen: &'a mut [u16],
    // The numbers of the pairs in the order in which they were found, and then 0.
    pub queue: &'a mut [u16],
    // How many pairs were found.
    pub tail: usize,
}

impl Marks<'_> {
    // A pair found from the place from goes to the queue's end, unless it was found before.
    pub fn mark(&mut self, from: usize, code: usize)
        requires tables { Tables self.old.seen.now self.old.queue.now self.old.tail }
        requires from_bound { from ≤ self.old.tail - 1 }
        requires code_lt_most_codes { code < most_codes }
        ensures kept { Kept self.old self.new }
        ensures pushed { Pushed self.old.seen.now self.old.queue.now self.old.tail from (some (decode code)) self.new.seen.now self.new.queue.now self.new.tail }
    {
        if self.seen[code] != 0 {
            return;
        }
        self.seen[code] = (from + 1) as u16;
        self.queue[self.tail] = code as u16;
        self.tail += 1;
    }

    // The tables are handed back all 0. Only what was marked is visited, so that costs no more than the walk did. Each table is
    // cleared by itself: both in one loop is slower.
    pub fn clear(self)
        requires { Tables self.seen.now self.queue.now self.tail }
        ensures { Blank self.exit.0.now self.exit.1.0.now }
    {
        let Marks { seen, queue, tail } = self;
        for &code in &queue[..tail] {
            seen[usize::from(code)] = 0;
        }
        queue[..tail].fill(0);
    }
}
