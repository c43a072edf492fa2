// The kinds of number. Each is a struct of its own, so that none can stand where another is asked. They are not one struct with the limit as a const
// parameter: an alias of that is no function, so `Message(m)` could not be written, and `Debug` would print one name for all three.
ghost use Rattle.std.specs.Prelude.{◌≡◌, ◌<◌, ◌≤◌, eqb};
ghost use Rattle.tables.specs.Limits.{most_controls, most_pool, most_messages};
ghost use Rattle.tables.specs.Kinds.{limited};
ghost use Rattle.tables.specs.Kind.{KindIs};

// The number itself where it is below its kind's limit, else the last below it.
fn limited<const LIMIT: usize>(raw: usize) -> u8
    requires least { 0 < LIMIT }
    requires most { LIMIT ≤ 256 }
    ensures { result ≡ limited LIMIT raw }
{
    if raw < LIMIT {
        raw as u8
    } else {
        (LIMIT - 1) as u8
    }
}

// The joint state of all machines, machine 0 most significant.
#[derive(Clone, Copy, Debug, PartialEq, Eq, PartialOrd, Ord)]
pub struct ControlState(pub u8);

// A state of the pool that all diagrams share.
#[derive(Clone, Copy, Debug, PartialEq, Eq, PartialOrd, Ord)]
pub struct DiagramState(pub u8);

// Where a word has led: to a diagram state, or nowhere. It is no `Option<DiagramState>`, which would be no plainer: a walk keeps each of its nodes as one
// number, in which nowhere has a number too, and would make an `Option` of it and the number of that again at every node.
#[derive(Clone, Copy, Debug, PartialEq, Eq)]
pub struct Reached(pub u8);

// A message, numbered through the queues.
#[derive(Clone, Copy, Debug, PartialEq, Eq, PartialOrd, Ord)]
pub struct Message(pub u8);

impl ControlState {
    pub const LIMIT: usize = 256;

    // The control state of this number; a number past the limit gives the last.
    pub fn new(raw: usize) -> Self
        ensures { result.0 ≡ limited most_controls raw }
    {
        ControlState(limited::<{ Self::LIMIT }>(raw))
    }
}

impl DiagramState {
    pub const LIMIT: usize = 127;

    // The diagram state of this number; a number past the limit gives the last.
    pub fn new(raw: usize) -> Self
        ensures { result.0 ≡ limited most_pool raw }
    {
        DiagramState(limited::<{ Self::LIMIT }>(raw))
    }
}

impl Reached {
    // No diagram state has this number.
    pub const NOWHERE: u8 = DiagramState::LIMIT as u8;

    pub fn nowhere() -> Self
        ensures { result.0 ≡ most_pool }
    {
        Reached(Self::NOWHERE)
    }

    pub fn at(s: DiagramState) -> Self
        ensures { result.0 ≡ s.0 }
    {
        Reached(s.0)
    }

    pub fn is_nowhere(self) -> bool
        ensures { result ≡ eqb self.0 most_pool }
    {
        self.0 == Self::NOWHERE
    }

    // The state, which it is unless it is nowhere.
    pub fn state(self) -> DiagramState
        requires { self.0 < most_pool }
        ensures { result.0 ≡ self.0 }
    {
        DiagramState(self.0)
    }
}

impl Message {
    pub const LIMIT: usize = 32;

    // The message of this number; a number past the limit gives the last.
    pub fn new(raw: usize) -> Self
        ensures { result.0 ≡ limited most_messages raw }
    {
        Message(limited::<{ Self::LIMIT }>(raw))
    }
}

// What a transition does to its queue, if anything.
#[derive(Clone, Copy, Debug, PartialEq, Eq)]
pub enum Kind {
    Local,
    Send,
    Receive,
}

// By its number in the table of transitions.
impl From<u8> for Kind {
    ghost from_gives = { KindIs };

    fn from(number: u8) -> Kind {
        match number {
            0 => Kind::Local,
            1 => Kind::Send,
            _ => Kind::Receive,
        }
    }
}
