// The verdict on a session file. Contents that it shows fill the front of the contents buffer; it has their number.
ghost use Rattle.std.specs.Prelude.{◌≡◌};
ghost use Rattle.verdicts.specs.Said.{concluded, why_number, why_place, messages_in};
ghost use Rattle.verdicts.specs.declared.verdict.CheckRefusal.TheVariants.{File};

use numbers::refusal::{Refusal, SHORT_MEMORY};
use tables::kinds::ControlState;

// The first item that fails.
#[derive(Clone, Copy, Debug, PartialEq, Eq)]
pub enum Failing {
    // what waits at the start is not in the set of the starting control state
    Outside,
    // a step leads out: control state, transition, messages shown, how far the contents after it are followed
    Leaves(ControlState, usize, usize, usize),
    // a bad entry's contents are inside: the entry, messages shown
    Bad(usize, usize),
}

// Both are answers: a session with an item that fails was checked as well as one without.
#[derive(Clone, Copy, Debug, PartialEq, Eq)]
pub enum Verdict {
    // nothing fails: the pairs visited
    Closed(usize),
    Fails(Failing),
}

// Why there is no verdict.
#[derive(Clone, Copy, Debug, PartialEq, Eq)]
pub enum CheckRefusal {
    // the file is not read
    File(Refusal),
    // a scratch table or the contents buffer is too short
    ShortMemory,
}

// Judging goes from item to item by `?`, so an item that fails is its `Err`; to the caller of a check it is a verdict.
impl From<Result<usize, Failing>> for Verdict {
    ghost from_gives = { λ judged v. v ≡ concluded judged };

    fn from(judged: Result<usize, Failing>) -> Verdict {
        match judged {
            Ok(pairs) => Verdict::Closed(pairs),
            Err(failing) => Verdict::Fails(failing),
        }
    }
}

impl From<Refusal> for CheckRefusal {
    ghost from_gives = { λ why e. e ≡ File why };

    fn from(why: Refusal) -> CheckRefusal {
        CheckRefusal::File(why)
    }
}

impl CheckRefusal {
    // The refusal's number in document 01.
    pub fn number(self) -> usize
        ensures { result ≡ why_number self }
    {
        match self {
            CheckRefusal::File(why) => why.number(),
            CheckRefusal::ShortMemory => SHORT_MEMORY,
        }
    }

    // And its place.
    pub fn place(self) -> usize
        ensures { result ≡ why_place self }
    {
        match self {
            CheckRefusal::File(why) => why.place(),
            CheckRefusal::ShortMemory => 0,
        }
    }
}

impl Failing {
    // How many messages are shown.
    pub fn shown(self) -> usize
        ensures { result ≡ messages_in self }
    {
        match self {
            Failing::Outside => 0,
            Failing::Leaves(_, _, shown, _) => shown,
            Failing::Bad(_, shown) => shown,
        }
    }
}
