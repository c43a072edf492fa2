// What a replay tells, and the record of its run as numbers.
ghost use Rattle.std.specs.Prelude.{◌≡◌, ◌++◌, ◌≤◌, length, drop};
ghost use Rattle.theory_replay.specs.Rules.{refusal};
ghost use Rattle.replaying_trace.specs.Reply.{ran, said_stop, said_replay, steps_of};
ghost use Rattle.c_replies.specs.Replays.{told_replay, record_out, record_least, run_after};

use crate::told::{Told, counted, tell_refusal};
use numbers::refusal::{MOST_BYTES, NOT_POSSIBLE, QUEUE_FULL, SHORT_MEMORY, TOO_LONG};
use replaying_step::runs::RunRecord;
use replaying_trace::progress::{Ended, ReplayRefusal, Stop};
use tables::tables::{MOST_MACHINES, MOST_QUEUES};

// The kinds of a replay, constants as those of `told` are.
pub const END: usize = 9;

pub const LEFT: usize = 10;

pub const STEP_REFUSED: usize = 11;

pub const TRACE_REFUSED: usize = 12;

pub const MEMORY_REFUSED: usize = 13;

// Entries that the record's space needs.
pub const RECORD_LEAST: usize = MOST_MACHINES as usize + 2 * MOST_QUEUES as usize;

fn step_refused(number: usize, place: usize, steps: usize) -> Told
    ensures { result ≡ told_replay (ran (refusal number place)) steps }
{
    Told {
        kind: STEP_REFUSED,
        first: number,
        second: place,
        third: steps,
        fourth: 0,
    }
}

// A function, as those of `told` are.
pub fn tell_replay(e: Result<Ended, ReplayRefusal>) -> Told
    ensures { result ≡ told_replay (said_replay e) (steps_of e) }
{
    match e {
        Ok(ended) => tell_ended(ended),
        Err(ReplayRefusal::File(why)) => tell_refusal(why),
        Err(ReplayRefusal::TraceTooLong) => Told {
            kind: TRACE_REFUSED,
            first: TOO_LONG,
            second: MOST_BYTES,
            third: 0,
            fourth: 0,
        },
        Err(ReplayRefusal::MemoryShort) => counted(MEMORY_REFUSED, SHORT_MEMORY),
    }
}

fn tell_ended(e: Ended) -> Told
    ensures { result ≡ told_replay (ran (said_stop e.why)) e.steps }
{
    let why = e.why;
    let steps = e.steps;
    match why {
        Stop::End => counted(END, steps),
        Stop::Outside(far) => Told {
            kind: LEFT,
            first: steps,
            second: far,
            third: 0,
            fourth: 0,
        },
        Stop::Unread(refusal) => step_refused(refusal.number(), refusal.place(), steps),
        Stop::NotPossible(at) => step_refused(NOT_POSSIBLE, at, steps),
        Stop::NoRoom(at) => step_refused(QUEUE_FULL, at, steps),
    }
}

// The record's numbers, at the front of the space. Twelve stores prove by computing; three loops would each ask for an invariant.
fn put_record(run: &mut [usize], r: RunRecord)
    requires { record_least ≤ length run.old }
    ensures { run.new ≡ record_out r ++ drop record_least run.old }
{
    let states = r.states;
    let heads = r.heads;
    let lengths = r.lengths;
    run[0] = states[0] as usize;
    run[1] = states[1] as usize;
    run[2] = states[2] as usize;
    run[3] = states[3] as usize;
    run[4] = heads[0];
    run[5] = heads[1];
    run[6] = heads[2];
    run[7] = heads[3];
    run[8] = lengths[0];
    run[9] = lengths[1];
    run[10] = lengths[2];
    run[11] = lengths[3];
}

// The numbers of a replay that ran; after a refusal of file, trace or memory the space is as it was.
pub fn put_run(run: &mut [usize], e: Result<Ended, ReplayRefusal>, r: RunRecord)
    requires { record_least ≤ length run.old }
    ensures { run.new ≡ run_after (said_replay e) r run.old }
{
    match e {
        Ok(_) => put_record(run, r),
        Err(_) => {}
    }
}
