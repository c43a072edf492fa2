// Why an input is turned away. Each case but the first and the last has its place in the bytes.
ghost use Rattle.std.specs.Prelude.{◌≡◌};
ghost use Rattle.numbers.specs.Said.{number_of, place_of};

// The most bytes of an input.
pub const MOST_BYTES: usize = 16384;

// The numbers of the refusals, of documents 01 and 02, each with what is so. They are constants: each is told to C and printed, and the refusals that
// have them are of several enums, one for each service.

// More bytes than an input may have.
pub const TOO_LONG: usize = 1;

// Too little memory is lent.
pub const SHORT_MEMORY: usize = 2;

// The bytes end before a number or inside one.
pub const ENDS_EARLY: usize = 3;

// A number of two bytes that is not in the shortest form, or longer.
pub const NOT_SHORTEST: usize = 4;

// A number outside its field's range.
pub const OUT_OF_RANGE: usize = 5;

// The product of states or the sum of messages passes its limit.
pub const PASSES_LIMIT: usize = 6;

// A message of a word is in another queue.
pub const OTHER_QUEUE: usize = 7;

// An arc's message does not ascend.
pub const NOT_ASCENDING: usize = 8;

// A word that is accepted from a root is not in queue order.
pub const NOT_IN_QUEUE_ORDER: usize = 9;

// Bytes after the last field.
pub const TRAILING: usize = 10;

// Membership: no control state of the file.
pub const NO_CONTROL: usize = 11;

// Membership: no message of the file.
pub const NO_MESSAGE: usize = 12;

// Membership: a message of an earlier queue than the one before it.
pub const EARLIER_QUEUE: usize = 13;

// A replay: the step cannot be taken.
pub const NOT_POSSIBLE: usize = 14;

// A replay: a queue has no room for what is sent.
pub const QUEUE_FULL: usize = 15;

// Writing: no file has these tables.
pub const NOT_READABLE: usize = 16;

// A buffer is too short for what is written.
pub const BUFFER_SHORT: usize = 17;

// An expression of more bytes than a text may have.
pub const TEXT_TOO_LONG: usize = 18;

// A text outside the grammar.
pub const OUTSIDE_GRAMMAR: usize = 19;

// A group in too many groups.
pub const TOO_DEEP: usize = 20;

// More numbers than a text may have.
pub const TOO_MANY_NUMBERS: usize = 21;

// More states than a pool may have.
pub const TOO_MANY_STATES: usize = 22;

// A file that resumes, and all its queues start empty.
pub const STARTS_EMPTY: usize = 23;

#[derive(Clone, Copy, Debug, PartialEq, Eq)]
pub enum Refusal {
    // more bytes than an input may have
    TooLong,
    // the bytes end before a number or inside one
    Ends(usize),
    // a number of two bytes that is not in the shortest form, or longer
    NotShortest(usize),
    // a number outside its field's range
    OutOfRange(usize),
    // the product of states or the sum of messages passes its limit
    PassesLimit(usize),
    // a message of a transition, or one that waits at the start, is in another queue
    OtherQueue(usize),
    // an arc's message does not ascend
    NotAscending(usize),
    // a word that is accepted from a root is not in queue order
    NotInQueueOrder(usize),
    // bytes after the last field
    Trailing(usize),
    // a file in the form that resumes, and all its queues start empty
    StartsEmpty,
}

impl Refusal {
    // The refusal's number in document 01.
    pub fn number(self) -> usize
        ensures { result ≡ number_of self }
    {
        match self {
            Refusal::TooLong => TOO_LONG,
            Refusal::Ends(_) => ENDS_EARLY,
            Refusal::NotShortest(_) => NOT_SHORTEST,
            Refusal::OutOfRange(_) => OUT_OF_RANGE,
            Refusal::PassesLimit(_) => PASSES_LIMIT,
            Refusal::OtherQueue(_) => OTHER_QUEUE,
            Refusal::NotAscending(_) => NOT_ASCENDING,
            Refusal::NotInQueueOrder(_) => NOT_IN_QUEUE_ORDER,
            Refusal::Trailing(_) => TRAILING,
            Refusal::StartsEmpty => STARTS_EMPTY,
        }
    }

    // And its place.
    pub fn place(self) -> usize
        ensures { result ≡ place_of self }
    {
        match self {
            Refusal::TooLong => MOST_BYTES,
            Refusal::Ends(at)
            | Refusal::NotShortest(at)
            | Refusal::OutOfRange(at)
            | Refusal::PassesLimit(at)
            | Refusal::OtherQueue(at)
            | Refusal::NotAscending(at)
            | Refusal::NotInQueueOrder(at)
            | Refusal::Trailing(at) => at,
            Refusal::StartsEmpty => 0,
        }
    }
}
