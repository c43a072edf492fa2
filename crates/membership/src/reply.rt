// What membership answers.
ghost use Rattle.std.specs.Prelude.{◌≡◌};
ghost use Rattle.membership.specs.declared.reply.MemberRefusal.TheVariants.{File};
ghost use Rattle.membership.specs.Said.{why_number, why_place};

use numbers::refusal::{EARLIER_QUEUE, NO_CONTROL, NO_MESSAGE, Refusal};

// With how many messages are followed: of a yes, all of them. A no is an answer and no error, so it is no `Err`.
#[derive(Clone, Copy, Debug, PartialEq, Eq)]
pub enum Member {
    Yes(usize),
    No(usize),
}

// Why a question is turned away.
#[derive(Clone, Copy, Debug, PartialEq, Eq)]
pub enum MemberRefusal {
    // the file is refused
    File(Refusal),
    // no control state has this number
    NoControl,
    // no message has the number at this place of the contents
    NoMessage(usize),
    // the message at this place is of an earlier queue than the one before it
    EarlierQueue(usize),
}

impl From<Refusal> for MemberRefusal {
    ghost from_gives = { λ why e. e ≡ File why };

    fn from(why: Refusal) -> MemberRefusal {
        Self::File(why)
    }
}

impl MemberRefusal {
    // The refusal's number in document 01.
    pub fn number(self) -> usize
        ensures { result ≡ why_number self }
    {
        match self {
            MemberRefusal::File(why) => why.number(),
            MemberRefusal::NoControl => NO_CONTROL,
            MemberRefusal::NoMessage(_) => NO_MESSAGE,
            MemberRefusal::EarlierQueue(_) => EARLIER_QUEUE,
        }
    }

    // And its place.
    pub fn place(self) -> usize
        ensures { result ≡ why_place self }
    {
        match self {
            MemberRefusal::File(why) => why.place(),
            MemberRefusal::NoControl => 0,
            MemberRefusal::NoMessage(at) => at,
            MemberRefusal::EarlierQueue(at) => at,
        }
    }
}
