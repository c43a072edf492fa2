// The numbers in a text: runs of digits, as long as they may be.
ghost use Rattle.std.specs.Prelude.{◌≡◌, ◌+◌, ◌*◌};
ghost use Rattle.theory_grammar.specs.Parse.{is_digit};
ghost use Rattle.theory_occurrences.specs.Positions.{clip};
ghost use Rattle.expression_scan.specs.Runs.{Runs};

use tables::kinds::Message;

// The digits at the front of a text: how many there are, and their number. The first number that is no message's stands for all others that
// are none.
#[derive(Clone, Copy, Debug, PartialEq, Eq)]
pub struct Run {
    pub value: u8,
    pub len: usize,
}

pub fn is_digit(b: u8) -> bool
    ensures { result ≡ is_digit b }
{
    b'0' <= b && b <= b'9'
}

fn with_digit(value: u8, digit: u8) -> u8
    ensures { result ≡ clip (value * 10 + digit) }
{
    let n = usize::from(value) * 10 + usize::from(digit);
    n.min(Message::LIMIT) as u8
}

pub fn leading_run(s: &[u8]) -> Run
    ensures { Runs s.now result }
{
    let mut value = 0;
    for (len, &b) in s.iter().enumerate() {
        if !is_digit(b) {
            return Run { value, len };
        }
        value = with_digit(value, b - b'0');
    }
    Run {
        value,
        len: s.len(),
    }
}
