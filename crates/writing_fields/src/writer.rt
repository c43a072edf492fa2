// A writer over the bytes of a session file: bytes, numbers and entries of tables are put one after the other.
ghost use Rattle.std.specs.Prelude.{◌+◌, ◌*◌, ◌≤◌, ◌≡◌, ◌∷◌, [], ◌++◌};
ghost use Rattle.theory_format.specs.Spelled.{number, entries};
ghost use Rattle.writing_fields.specs.Parts.{ample_place, both_short};
ghost use Rattle.writing_fields.specs.Writer.{Puts, Room};

use numbers::number::entry;

// The bytes that are written, which are not copied, and the place that writing has come to.
#[derive(Drop)]
pub(crate) struct Writer<'a> {
    pub(crate) bytes: &'a mut [u8],
    pub(crate) place: usize,
}

impl Writer<'_> {
    // Past the end of the buffer there is nothing to change, and the place goes on all the same.
    fn byte(&mut self, b: u8)
        requires { Room self.old 1 }
        ensures { Puts self.old 1 (b ∷ []) self.new }
    {
        let at = self.place;
        if at < self.bytes.len() {
            self.bytes[at] = b;
        }
        self.place = at + 1;
    }

    // A byte from 128 on is its own low group with the top bit set, and its high group is 1.
    pub(crate) fn number(&mut self, v: u8)
        requires { Room self.old 2 }
        ensures { Puts self.old 2 (number v) self.new }
    {
        self.byte(v);
        if v < 128 {
            return;
        }
        self.byte(1);
    }

    // Two numbers. Mostly they are short, and then the buffer's end is looked at once.
    pub(crate) fn two(&mut self, a: u8, b: u8)
        requires { Room self.old 4 }
        ensures { Puts self.old 4 (number a ++ number b) self.new }
    {
        let at = self.place;
        if both_short(self.bytes.len(), at, a, b) {
            self.bytes[at] = a;
            self.bytes[at + 1] = b;
            self.place = at + 2;
            return;
        }
        self.number(a);
        self.number(b);
    }

    // So many entries of a table, from entry first on.
    pub(crate) fn entries(&mut self, table: &[u8], first: usize, count: usize)
        requires room { Room self.old (2 * count) }
        requires count_bound { first + count ≤ ample_place }
        ensures { Puts self.old (2 * count) (entries table.now count first) self.new }
    {
        for i in first..first + count {
            self.number(entry(table, i));
        }
    }
}

// Do two numbers take a byte each, and are both places in a buffer of so many bytes?
fn both_short(long: usize, at: usize, a: u8, b: u8) -> bool
    requires { at + 1 ≤ ample_place }
    ensures { result ≡ both_short long at a b }
{
    a < 128 && b < 128 && at + 1 < long
}
