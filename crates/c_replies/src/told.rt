// What a call tells: the kind of its reply, and up to four numbers that go with it.
ghost use Rattle.std.specs.Prelude.{◌≡◌, ◌≤◌, length};
ghost use Rattle.numbers.specs.Said.{number_of, place_of};
ghost use Rattle.membership.specs.Said.{said_member};
ghost use Rattle.writing_file.specs.Write.{said_written};
ghost use Rattle.c_replies.specs.Told.{told_of, told_failing, told_verdict, told_member, told_written, told_refusal, reply_least, Tells};

use membership::reply::{Member, MemberRefusal};
use numbers::number::wide;
use numbers::refusal::{EARLIER_QUEUE, NO_CONTROL, NO_MESSAGE, Refusal};
use verdicts::verdict::{CheckRefusal, Failing, Verdict};
use writing_file::write::WriteRefusal;

// The kinds. Constants and no enum: the header of C names these numbers, and a call answers one of them.
pub const CLOSED: usize = 0;

pub const OUTSIDE: usize = 1;

pub const LEAVES: usize = 2;

pub const BAD: usize = 3;

pub const REFUSED: usize = 4;

pub const NO_ROOM: usize = 5;

pub const READ: usize = 6;

pub const YES: usize = 7;

pub const NO: usize = 8;

pub const WRITTEN: usize = 14;

// Entries that the reply's space needs.
pub const REPLY_LEAST: usize = 4;

#[derive(Clone, Copy, Debug, PartialEq, Eq)]
pub struct Told {
    pub kind: usize,
    pub first: usize,
    pub second: usize,
    pub third: usize,
    pub fourth: usize,
}

// A kind that no numbers go with.
pub fn bare(kind: usize) -> Told
    ensures { result ≡ told_of kind 0 0 0 0 }
{
    Told {
        kind,
        first: 0,
        second: 0,
        third: 0,
        fourth: 0,
    }
}

// A kind that one number goes with.
pub fn counted(kind: usize, count: usize) -> Told
    ensures { result ≡ told_of kind count 0 0 0 }
{
    Told {
        kind,
        first: count,
        second: 0,
        third: 0,
        fourth: 0,
    }
}

pub fn refused(number: usize, place: usize) -> Told
    ensures { result ≡ told_refusal number place }
{
    Told {
        kind: REFUSED,
        first: number,
        second: place,
        third: 0,
        fourth: 0,
    }
}

// One function for what each service answers: `From` impls would be these bodies, and a call would not say which answer it tells.
pub fn tell_refusal(why: Refusal) -> Told
    ensures { result ≡ told_refusal (number_of why) (place_of why) }
{
    refused(why.number(), why.place())
}

fn tell_failing(failing: Failing) -> Told
    ensures { result ≡ told_failing failing }
{
    match failing {
        Failing::Outside => bare(OUTSIDE),
        Failing::Leaves(control, transition, shown, far) => Told {
            kind: LEAVES,
            first: wide(control.0),
            second: transition,
            third: shown,
            fourth: far,
        },
        Failing::Bad(entry, shown) => Told {
            kind: BAD,
            first: entry,
            second: shown,
            third: 0,
            fourth: 0,
        },
    }
}

pub fn tell_verdict(v: Result<Verdict, CheckRefusal>) -> Told
    ensures { result ≡ told_verdict v }
{
    match v {
        Ok(Verdict::Closed(pairs)) => counted(CLOSED, pairs),
        Ok(Verdict::Fails(failing)) => tell_failing(failing),
        Err(why) => refused(why.number(), why.place()),
    }
}

pub fn tell_member(m: Result<Member, MemberRefusal>) -> Told
    ensures { result ≡ told_member (said_member m) }
{
    match m {
        Ok(Member::Yes(far)) => counted(YES, far),
        Ok(Member::No(far)) => counted(NO, far),
        Err(why) => refused(why.number(), why.place()),
    }
}

pub fn tell_written(w: Result<usize, WriteRefusal>) -> Told
    ensures { result ≡ told_written (said_written w) }
{
    match w {
        Ok(length) => counted(WRITTEN, length),
        Err(why) => refused(why.number(), 0),
    }
}

// The numbers fill the front of the reply's space. Returns the kind.
pub fn put_told(reply: &mut [usize], t: Told) -> usize
    requires { reply_least ≤ length reply.old }
    ensures { Tells t reply.old reply.new result }
{
    reply[0] = t.first;
    reply[1] = t.second;
    reply[2] = t.third;
    reply[3] = t.fourth;
    t.kind
}
