// The parts of a text: what is known of a part that was read, how two make one, and the reading that does not go round in the grammar.
ghost use Rattle.std.specs.Prelude.{◌≡◌, ◌==◌, ◌+◌, length, take_while, drop};
ghost use Rattle.expression_scan.specs.Runs.{leading};
ghost use Rattle.expression_parse.specs.Steps.{is_space, stands_at, ends_at, Sequenced, Eithered, Starred, NumberReady, Item};

use expression_scan::digits::leading_run;
use expression_sets::sets::{Occurrences, Occurring};

// A part that was read: the place behind it and its spaces, the number of the next occurrence, the occurrences that may begin and end its
// words, and whether the empty word is one of them.
#[derive(Clone, Copy)]
pub struct Part {
    pub next: usize,
    pub count: usize,
    pub first: Occurrences,
    pub last: Occurrences,
    pub skips: bool,
}

// The place where a text leaves the grammar.
#[derive(Clone, Copy, Debug, PartialEq, Eq)]
pub struct Stuck(pub usize);

// Does this byte stand there?
pub(crate) fn stands(s: &[u8], at: usize, b: u8) -> bool
    ensures { result ≡ stands_at s.now at b }
{
    at < s.len() && s[at] == b
}

// Does an alternative end there?
pub(crate) fn ends(s: &[u8], at: usize) -> bool
    ensures { result ≡ ends_at s.now at }
{
    s.len() <= at || s[at] == b')' || s[at] == b'|'
}

// How many spaces stand at the front.
fn spaces(rest: &[u8]) -> usize
    ensures { result ≡ length (take_while (λ b. b == 32) rest.now) }
{
    rest.iter().take_while(|b| **b == b' ').count()
}

// The place behind the spaces. The slice is cut off, as `iter().skip(at)` goes through all that it passes over.
pub(crate) fn skip(s: &[u8], at: usize) -> usize
    ensures { result ≡ at + leading is_space (drop at s.now) }
{
    at + spaces(&s[at.min(s.len())..])
}

impl Part {
    // Two parts side by side.
    pub(crate) fn sequence(self, rest: Part, occurring: &mut Occurring) -> Part
        ensures parts { Sequenced self rest occurring.old.follow occurring.new.follow result }
        ensures label { occurring.new.label ≡ occurring.old.label }
    {
        occurring.connect(self.last, rest.first);
        Part {
            next: rest.next,
            count: rest.count,
            first: self.first | rest.first.when(self.skips),
            last: rest.last | self.last.when(rest.skips),
            skips: self.skips && rest.skips,
        }
    }

    // One part or the other.
    pub(crate) fn either(self, rest: Part) -> Part
        ensures { Eithered self rest result }
    {
        Part {
            next: rest.next,
            count: rest.count,
            first: self.first | rest.first,
            last: self.last | rest.last,
            skips: self.skips || rest.skips,
        }
    }

    // A number or a group that ends at this place, with the star that may stand behind it.
    pub(crate) fn starred(self, s: &[u8], end: usize, occurring: &mut Occurring) -> Part
        ensures part { Starred s.now self end occurring.old.follow occurring.new.follow result }
        ensures label { occurring.new.label ≡ occurring.old.label }
    {
        let next = skip(s, end);
        if !stands(s, next, b'*') {
            return Part { next, ..self };
        }
        occurring.connect(self.last, self.first);
        let behind = skip(s, next + 1);
        Part {
            next: behind,
            skips: true,
            ..self
        }
    }
}

// The number at a place, which is the occurrence k, with its star. After a 0 there is no further digit.
pub(crate) fn number(
    s: &[u8],
    at: usize,
    k: usize,
    occurring: &mut Occurring,
) -> Result<Part, Stuck>
    requires { NumberReady s.now at k }
    ensures { Item s.now at k occurring.old.label occurring.old.follow occurring.new.label occurring.new.follow result }
{
    let run = leading_run(&s[at..]);
    if s[at] == b'0' && 1 < run.len {
        return Err(Stuck(at + 1));
    }
    occurring.put(k, run.value);
    let set = Occurrences::only(k);
    let next = at + run.len;
    let leaf = Part {
        next,
        count: k + 1,
        first: set,
        last: set,
        skips: false,
    };
    Ok(leaf.starred(s, next, occurring))
}
