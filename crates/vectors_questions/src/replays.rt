// Replays: the reply, the record and a digest of the memory. Behind the file stands the trace, in the same form; then the length of the memory in two
// bytes, low byte first; then the byte that the memory is made from and the byte that the record is made from.
use crate::lent::record_from;
use crate::report::report;
use replaying_trace::run::replay;
use std::io;
use std::io::{Read, Write};
use streams::files::next_file;
use streams::lent::{digest, fill};
use streams::lines::Line;

// Answers the replay against this file.
pub(crate) fn answer<R: Read, W: Write>(
    input: &mut R,
    output: &mut W,
    file: &[u8],
    trace: &mut [u8],
    memory: &mut [u8],
) -> Option<()> {
    let length = next_file(input, trace)?;
    let mut head = [0u8; 4];
    input.read_exact(&mut head).ok()?;
    let room = u16::from_le_bytes([head[0], head[1]]) as usize;
    if memory.len() < room {
        return None;
    }
    let _ = answer_in(
        &mut Line { output },
        file,
        &trace[..length],
        &mut memory[..room],
        head[2],
        head[3],
    );
    Some(())
}

// Answers the replay in this memory.
fn answer_in<W: Write>(
    output: &mut W,
    file: &[u8],
    trace: &[u8],
    memory: &mut [u8],
    m: u8,
    k: u8,
) -> io::Result<()> {
    fill(memory, m);
    let mut record = record_from(k);
    let reply = replay(&mut record, file, trace, memory);
    report(output, reply, &record, digest(memory))
}
