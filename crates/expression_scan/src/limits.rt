// The limits on an expression: the leftmost byte that offends, found in one pass.
ghost use Rattle.std.specs.Prelude.{◌≡◌, not, ◌&&◌, ◌<◌, eqb, length, get_or, drop};
ghost use Rattle.theory_grammar.specs.Parse.{is_digit};
ghost use Rattle.theory_grammar.specs.Offends.{offence, more, limits};
ghost use Rattle.expression_scan.specs.Said.{said_excess, said_offence, said_limit};

use crate::digits::{is_digit, leading_run};
use expression_sets::sets::MOST_OCCURRENCES;
use numbers::refusal::{OUT_OF_RANGE, TOO_DEEP, TOO_MANY_NUMBERS};
use tables::kinds::Message;

const MOST_DEPTH: usize = 8;

// The limit that a byte passes.
#[derive(Clone, Copy, Debug, PartialEq, Eq)]
pub enum Excess {
    // a number that is no message's
    Large,
    // a group in too many groups
    Deep,
    // a number after as many as an expression may have
    Many,
}

impl Excess {
    // The number of its refusal.
    pub fn number(self) -> usize
        ensures { result ≡ said_excess self }
    {
        match self {
            Excess::Large => OUT_OF_RANGE,
            Excess::Deep => TOO_DEEP,
            Excess::Many => TOO_MANY_NUMBERS,
        }
    }
}

// What passes a limit leftmost, and its place.
#[derive(Clone, Copy, Debug, PartialEq, Eq)]
pub struct Offence {
    pub excess: Excess,
    pub place: usize,
}

// What stands before a byte: a digit or not, so many opening and closing brackets, and so many numbers that begin there.
#[derive(Clone, Copy)]
struct Before {
    inside: bool,
    opened: usize,
    closed: usize,
    numbers: usize,
}

impl Before {
    // The limit that the byte at the front of the rest of a text passes. A number is looked ahead to its end where it begins.
    fn offence(self, rest: &[u8]) -> Option<Excess>
        requires { 0 < length rest.now }
        ensures { said_offence result ≡ offence self.inside self.opened self.closed self.numbers (get_or rest.now 0 0) (drop 1 rest.now) }
    {
        let b = rest[0];
        if is_digit(b) {
            if self.inside {
                return None;
            }
            let value = usize::from(leading_run(rest).value);
            let large = (Message::LIMIT <= value).then_some(Excess::Large);
            let many = (MOST_OCCURRENCES <= self.numbers).then_some(Excess::Many);
            return large.or(many);
        }
        let deep = MOST_DEPTH <= self.opened.saturating_sub(self.closed);
        (b == b'(' && deep).then_some(Excess::Deep)
    }

    // What stands before the next byte.
    fn after(self, b: u8) -> Before
        requires opened_room { self.opened < usize.MAX }
        requires closed_room { self.closed < usize.MAX }
        requires numbers_room { self.numbers < usize.MAX }
        ensures inside { result.inside ≡ is_digit b }
        ensures opened { result.opened ≡ more (eqb b 40) self.opened }
        ensures closed { result.closed ≡ more (eqb b 41) self.closed }
        ensures numbers { result.numbers ≡ more (is_digit b && not self.inside) self.numbers }
    {
        let digit = is_digit(b);
        Before {
            inside: digit,
            opened: self.opened + usize::from(b == b'('),
            closed: self.closed + usize::from(b == b')'),
            numbers: self.numbers + usize::from(digit && !self.inside),
        }
    }
}

// One pass over a text.
pub fn check(s: &[u8]) -> Result<(), Offence>
    ensures { said_limit result ≡ limits s.now }
{
    let mut before = Before {
        inside: false,
        opened: 0,
        closed: 0,
        numbers: 0,
    };
    for (place, &b) in s.iter().enumerate() {
        if let Some(excess) = before.offence(&s[place..]) {
            return Err(Offence { excess, place });
        }
        before = before.after(b);
    }
    Ok(())
}
