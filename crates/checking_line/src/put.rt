// Numbers and messages in decimal, each put into a buffer from a place on. Each function answers the place after what it put. The digits are put by hand,
// since the promise `Writes` says of a lent buffer every byte, by the definition `digits`.
ghost use Rattle.std.specs.Prelude.{◌+◌, ◌*◌, ◌≤◌, ◌<◌, ◌≡◌, ◌∷◌, length};
ghost use Rattle.theory_model.specs.Line.{digits, spaced_all, listed};
ghost use Rattle.numbers.specs.Put.{Put};

use numbers::put::put_byte;

// The byte of a decimal digit.
pub(crate) fn digit(n: usize) -> u8
    requires { n < 10 }
    ensures { result ≡ 48 + n }
{
    b'0' + n as u8
}

// A number by its digits, the last so many of them.
pub(crate) fn put_digits(s: &mut [u8], at: usize, most: usize, n: usize) -> usize
    requires { at + most ≤ length s.old }
    ensures { Put s.old at most (digits most n) s.new result }
{
    if most == 0 {
        return at;
    }
    if n < 10 {
        return put_byte(s, at, digit(n));
    }
    let next = put_digits(s, at, most - 1, n / 10);
    put_byte(s, next, digit(n % 10))
}

// A space and a number.
pub(crate) fn put_spaced(s: &mut [u8], at: usize, most: usize, n: usize) -> usize
    requires { at + (1 + most) ≤ length s.old }
    ensures { Put s.old at (1 + most) (32 ∷ digits most n) s.new result }
{
    let next = put_byte(s, at, b' ');
    put_digits(s, next, most, n)
}

// Messages, each after a space. A byte has at most three digits.
pub(crate) fn put_messages(s: &mut [u8], at: usize, messages: &[u8]) -> usize
    requires { at + 4 * length messages.now ≤ length s.old }
    ensures { Put s.old at (4 * length messages.now) (spaced_all messages.now) s.new result }
{
    let mut next = at;
    for &message in messages {
        next = put_spaced(s, next, 3, usize::from(message));
    }
    next
}

// A colon, and messages.
pub(crate) fn put_listed(s: &mut [u8], at: usize, messages: &[u8]) -> usize
    requires { at + (1 + 4 * length messages.now) ≤ length s.old }
    ensures { Put s.old at (1 + 4 * length messages.now) (listed messages.now) s.new result }
{
    let colon = put_byte(s, at, b':');
    put_messages(s, colon, messages)
}
