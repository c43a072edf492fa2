// The answer to a file: the verdict on it, as the line that the program prints.
#![tactic(auto)]

ghost use Rattle.checking_answer.specs.Answer.{Answers, Lines, WholeLine};

use checking_file::check::{MOST_SHOWN, TABLE_LEAST, check};
use checking_line::verdict::write_line;
use tables::tables::CONTENTS_LEAST;

// Bytes that hold any line: for each message a space and at most three digits, and 52 for the rest.
pub const MOST_LINE: usize = 4 * MOST_SHOWN + 52;

// The line of a file, at the front of the buffer: its length.
pub fn answer(
    file: &[u8],
    seen: &mut [u16],
    queue: &mut [u16],
    contents: &mut [u8],
    buffer: &mut [u8],
) -> usize
    ensures { Answers file.now seen.old queue.old contents.old buffer.old seen.new queue.new contents.new buffer.new result }
{
    let checked = check(file, seen, queue, contents);
    write_line(buffer, checked, contents)
}

// The line of a file, at the front of the buffer: its length, or 0 where the buffer has no room for it. Tables and contents are of a
// size that is always enough.
pub fn line_of(file: &[u8], buffer: &mut [u8]) -> usize
    ensures { Lines file.now buffer.old buffer.new result }
{
    let mut seen = [0u16; TABLE_LEAST];
    let mut queue = [0u16; TABLE_LEAST];
    let mut contents = [0u8; CONTENTS_LEAST];
    answer(file, &mut seen, &mut queue, &mut contents, buffer)
}

// The line of a file, at the front of a buffer that holds any line: its length.
pub fn whole_line(file: &[u8], buffer: &mut [u8; MOST_LINE]) -> usize
    ensures { WholeLine file.now buffer.old buffer.new result }
{
    line_of(file, buffer)
}
