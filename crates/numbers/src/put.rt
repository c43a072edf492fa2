// Bytes put into a buffer from a place on: one, a whole word, four of them. Each function answers the place after what it put.
ghost use Rattle.std.specs.Prelude.{◌+◌, ◌≤◌, ◌∷◌, [], length};
ghost use Rattle.numbers.specs.Put.{Put, four, four_long};

pub fn put_byte(s: &mut [u8], at: usize, b: u8) -> usize
    requires { at + 1 ≤ length s.old }
    ensures { Put s.old at 1 (b ∷ []) s.new result }
{
    s[at] = b;
    at + 1
}

pub fn put_word(s: &mut [u8], at: usize, word: &[u8]) -> usize
    requires { at + length word.now ≤ length s.old }
    ensures { Put s.old at (length word.now) word.now s.new result }
{
    let next = at + word.len();
    s[at..next].copy_from_slice(word);
    next
}

// Four texts, one after the other.
pub fn put_four(s: &mut [u8], at: usize, a: &[u8], b: &[u8], c: &[u8], d: &[u8]) -> usize
    requires { at + four_long a.now b.now c.now d.now ≤ length s.old }
    ensures { Put s.old at (four_long a.now b.now c.now d.now) (four a.now b.now c.now d.now) s.new result }
{
    let second = put_word(s, at, a);
    let third = put_word(s, second, b);
    let fourth = put_word(s, third, c);
    put_word(s, fourth, d)
}
