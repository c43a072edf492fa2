// Whether contents belong to a control state. Behind the file stand the control state in two bytes, then the contents, their length in two bytes before
// them. Low bytes come first.
use membership::member::member;
use membership::reply::Member;
use std::io::{Read, Write};
use streams::fill_front;
use streams::lines::Line;

pub(crate) fn answer<R: Read, W: Write>(
    input: &mut R,
    output: &mut W,
    file: &[u8],
    contents: &mut [u8],
) -> Option<()> {
    let mut head = [0u8; 4];
    input.read_exact(&mut head).ok()?;
    let control = u16::from_le_bytes([head[0], head[1]]) as usize;
    let messages = u16::from_le_bytes([head[2], head[3]]) as usize;
    if !fill_front(input, contents, messages) {
        return None;
    }
    let mut line = Line { output };
    let _ = match member(file, control, &contents[..messages]) {
        Ok(Member::Yes(far)) => write!(line, "yes {far}"),
        Ok(Member::No(far)) => write!(line, "no {far}"),
        Err(why) => write!(line, "refused {} at {}", why.number(), why.place()),
    };
    line.output.write_all(b"\n").ok()
}
