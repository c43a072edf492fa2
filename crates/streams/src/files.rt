// A stream of records, which the programs have on standard input. A record is a byte that says what is asked, then a file, its length in three bytes, low byte first, and its bytes,
// and then whatever else that question has.
ghost use Rattle.std.specs.Prelude.{◌≤◌, length, IfSome};

use crate::fill_front;
use numbers::number::wide;
use std::io::Read;

// The byte that says what is asked; none at the end of the stream.
pub fn next_tag<R: Read>(input: &mut R) -> Option<u8> {
    let mut tag = [0u8; 1];
    input.read_exact(&mut tag).ok()?;
    Some(tag[0])
}

// The length of a file, which fills the front of the space; none at the end of the stream, and where the space is too short.
pub fn next_file<R: Read>(input: &mut R, space: &mut [u8]) -> Option<usize>
    ensures { IfSome result (λ n. n ≤ length space.new) }
{
    let mut head = [0u8; 3];
    input.read_exact(&mut head).ok()?;
    let length = wide(head[0]) + 256 * wide(head[1]) + 65536 * wide(head[2]);
    if fill_front(input, space, length) {
        Some(length)
    } else {
        None
    }
}
