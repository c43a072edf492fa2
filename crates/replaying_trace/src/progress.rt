// How far a replay has come, how it ended, and why there is none.
ghost use Rattle.std.specs.Prelude.{◌≡◌};
ghost use Rattle.replaying_trace.specs.declared.progress.Stop.TheVariants as Stops;
ghost use Rattle.replaying_trace.specs.declared.progress.ReplayRefusal.TheVariants.{File};

use numbers::refusal::Refusal;
use replaying_step::inside::Outside;
use replaying_step::runs::RunRecord;

// The place in the trace that a replay has come to, and the steps taken.
#[derive(Clone, Copy, Debug, PartialEq, Eq)]
pub struct Progress {
    pub at: usize,
    pub steps: usize,
}

// Why a replay ended. Places of a step are in the trace.
#[derive(Clone, Copy, Debug, PartialEq, Eq)]
pub enum Stop {
    // the end of the trace
    End,
    // the configuration is outside the map, and so many messages of what waits are followed
    Outside(usize),
    // no number, or one that is no transition
    Unread(Refusal),
    // the machine is in another state, or the queue does not begin with the word
    NotPossible(usize),
    // a queue would pass its room
    NoRoom(usize),
}

impl From<Outside> for Stop {
    ghost from_gives = { λ o s. s ≡ Stops.Outside o.0 };

    fn from(o: Outside) -> Stop {
        Stop::Outside(o.0)
    }
}

impl From<Refusal> for Stop {
    ghost from_gives = { λ why s. s ≡ Stops.Unread why };

    fn from(why: Refusal) -> Stop {
        Stop::Unread(why)
    }
}

// Why a replay does not begin.
#[derive(Clone, Copy, Debug, PartialEq, Eq)]
pub enum ReplayRefusal {
    // the file is refused
    File(Refusal),
    // the trace has too many bytes
    TraceTooLong,
    // the queue memory has too few
    MemoryShort,
}

impl From<Refusal> for ReplayRefusal {
    ghost from_gives = { λ why r. r ≡ File why };

    fn from(why: Refusal) -> ReplayRefusal {
        ReplayRefusal::File(why)
    }
}

#[derive(Clone, Copy, Debug, PartialEq, Eq)]
pub struct Ended {
    pub why: Stop,
    pub steps: usize,
}

// After a replay; where there was none the record is the one before.
#[derive(Clone, Copy, Debug, PartialEq, Eq)]
pub struct Replayed {
    pub record: RunRecord,
    pub ended: Result<Ended, ReplayRefusal>,
}
