// A reader over the bytes of a session file: numbers of one or two bytes, groups of seven bits with the low group first. What is read
// at the reader's place moves the place past it.
ghost use Rattle.std.specs.Prelude.{◌≡◌, ◌≤◌, ◌<◌, IfOk, OnErr};
ghost use Rattle.numbers.specs.Said.{said};
ghost use Rattle.numbers.specs.Number.{read_number, read_within, read_below, read_two};

use crate::refusal::Refusal;

// The bytes of a file, which are not copied, and the place that reading has come to.
#[derive(Clone, Copy)]
pub struct Reader<'a> {
    pub bytes: &'a [u8],
    pub place: usize,
}

impl<'a> Reader<'a> {
    pub fn new(bytes: &'a [u8], place: usize) -> Reader<'a>
        ensures { (result.bytes ≡ bytes.entry) × (result.place ≡ place) }
    {
        Reader { bytes, place }
    }
}

impl Reader<'_> {
    // A refusal leaves the place where it was.
    #[tactic(auto, unfolding(crate::specs::Number::read_number))]
    pub fn number(&mut self) -> Result<usize, Refusal>
        ensures read { said result self.new.place ≡ read_number self.old.bytes.now self.old.place }
        ensures bytes { self.new.bytes ≡ self.old.bytes }
        ensures stays { OnErr result (self.new.place ≡ self.old.place) }
    {
        let s = self.bytes;
        let at = self.place;
        if s.len() <= at {
            return Err(Refusal::Ends(s.len()));
        }
        let low = s[at];
        if low < 128 {
            self.place = at + 1;
            return Ok(usize::from(low));
        }
        let next = at + 1;
        if s.len() <= next {
            return Err(Refusal::Ends(s.len()));
        }
        let high = s[next];
        if high == 0 || 128 <= high {
            return Err(Refusal::NotShortest(at));
        }
        self.place = at + 2;
        Ok(usize::from(low) - 128 + 128 * usize::from(high))
    }

    // A number from least to most.
    #[tactic(auto, using(crate::specs::Laws::Parts::handed_on), unfolding(crate::specs::Number::read_within))]
    pub fn within(&mut self, least: u8, most: u8) -> Result<u8, Refusal>
        ensures read { said result self.new.place ≡ read_within self.old.bytes.now self.old.place least most }
        ensures range { IfOk result (λ v. (least ≤ v) × (v ≤ most)) }
        ensures bytes { self.new.bytes ≡ self.old.bytes }
    {
        let at = self.place;
        let v = self.number()?;
        if v < usize::from(least) || usize::from(most) < v {
            return Err(Refusal::OutOfRange(at));
        }
        Ok(v as u8)
    }

    // A number below a limit.
    #[tactic(auto, using(crate::specs::Laws::Parts::handed_on), unfolding(crate::specs::Number::read_below))]
    pub fn below(&mut self, limit: usize) -> Result<u8, Refusal>
        requires { limit ≤ 256 }
        ensures read { said result self.new.place ≡ read_below self.old.bytes.now self.old.place limit }
        ensures range { IfOk result (λ v. v < limit) }
        ensures bytes { self.new.bytes ≡ self.old.bytes }
    {
        let at = self.place;
        let v = self.number()?;
        if limit <= v {
            return Err(Refusal::OutOfRange(at));
        }
        Ok(v as u8)
    }

    // Two numbers, each below a limit of its own.
    #[tactic(auto, using(crate::specs::Laws::Parts::handed_on), unfolding(crate::specs::Number::read_two))]
    pub fn two(&mut self, first: usize, second: usize) -> Result<(u8, u8), Refusal>
        requires first_bound { first ≤ 256 }
        requires second_bound { second ≤ 256 }
        ensures read { said result self.new.place ≡ read_two self.old.bytes.now self.old.place first second }
        ensures range { IfOk result (λ v. (v.0 < first) × (v.1 < second)) }
        ensures bytes { self.new.bytes ≡ self.old.bytes }
    {
        let a = self.below(first)?;
        let b = self.below(second)?;
        Ok((a, b))
    }
}
