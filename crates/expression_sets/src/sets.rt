// Sets of occurrences, a bit for each, and tables with an entry for each occurrence. Occurrences past the last that has a bit are in no set
// and in no table: the text is refused for their number later.
ghost use Rattle.std.specs.Prelude.{◌≡◌, cond, eqb, ℕ};
ghost use Rattle.theory_occurrences.specs.Sets.{joined, meet, only, put, link, gather};
ghost use Rattle.expression_sets.specs.Marks.{Marks};

use std::marker::Model;
use std::ops::{BitAnd, BitOr};
use tables::kinds::Message;

pub const MOST_OCCURRENCES: usize = 32;

// A set of occurrences. Contracts see it as the number that its bits make.
#[derive(Clone, Copy, PartialEq, Eq)]
pub struct Occurrences {
    bits: u32,
}

impl Model for Occurrences {
    ghost Value = { ℕ };

    ghost view = { λ s. s.bits };

    ghost inverse = { λ x. record { bits = x } };
}

impl BitOr for Occurrences {
    type Output = Occurrences;

    ghost bitor_gives = { λ x y r. r ≡ joined x y };

    fn bitor(self, rhs: Occurrences) -> Occurrences {
        Occurrences {
            bits: self.bits | rhs.bits,
        }
    }
}

impl BitAnd for Occurrences {
    type Output = Occurrences;

    ghost bitand_gives = { λ x y r. r ≡ meet x y };

    fn bitand(self, rhs: Occurrences) -> Occurrences {
        Occurrences {
            bits: self.bits & rhs.bits,
        }
    }
}

impl Occurrences {
    pub const NONE: Occurrences = Occurrences { bits: 0 };

    // The set of one occurrence.
    pub fn only(k: usize) -> Self
        ensures { result ≡ only k }
    {
        if k < MOST_OCCURRENCES {
            Occurrences { bits: 1u32 << k }
        } else {
            Self::NONE
        }
    }

    pub fn is_empty(self) -> bool
        ensures { result ≡ eqb self 0 }
    {
        self.bits == 0
    }

    // The set, if the test holds, and the empty set if not.
    pub fn when(self, test: bool) -> Self
        ensures { result ≡ cond test self 0 }
    {
        if test { self } else { Self::NONE }
    }

    // What may follow the occurrences of the set.
    pub fn gather(self, follow: &[Occurrences; MOST_OCCURRENCES]) -> Self
        ensures { result ≡ gather self follow.now }
    {
        let mut sum = Self::NONE;
        let mut rest = self.bits;
        for &behind in follow {
            if rest == 0 {
                return sum;
            }
            if rest % 2 == 1 {
                sum = sum | behind;
            }
            rest /= 2;
        }
        sum
    }
}

// The message of each occurrence, and what may follow it.
#[derive(Drop)]
pub struct Occurring {
    pub label: [u8; MOST_OCCURRENCES],
    pub follow: [Occurrences; MOST_OCCURRENCES],
}

impl Occurring {
    pub fn put(&mut self, k: usize, v: u8)
        ensures label { self.new.label ≡ put k v self.old.label }
        ensures follow { self.new.follow ≡ self.old.follow }
    {
        if k < MOST_OCCURRENCES {
            self.label[k] = v;
        }
    }

    // What may follow the occurrences of a set is more by another set.
    pub fn connect(&mut self, from: Occurrences, to: Occurrences)
        ensures label { self.new.label ≡ self.old.label }
        ensures follow { self.new.follow ≡ link from to self.old.follow }
    {
        let mut rest = from.bits;
        for behind in &mut self.follow {
            if rest == 0 {
                return;
            }
            if rest % 2 == 1 {
                *behind = *behind | to;
            }
            rest /= 2;
        }
    }

    // The occurrences of each message.
    pub fn marks(&self) -> [Occurrences; Message::LIMIT]
        ensures { Marks self.now.label result }
    {
        let mut marks = [Occurrences::NONE; Message::LIMIT];
        for (i, &m) in self.label.iter().enumerate() {
            let m = usize::from(m);
            if m < Message::LIMIT {
                marks[m] = marks[m] | Occurrences::only(i);
            }
        }
        marks
    }
}
