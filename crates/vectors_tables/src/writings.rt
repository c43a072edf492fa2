// Tables that are written: the reply and a digest of the buffer. Behind the file stands the question, in the same form: the length of the buffer in two
// bytes, low byte first; the byte that it is filled from; and a mode. Mode 0 goes on with edits of the flat tables, mode 1 with the product of the tables in
// three bytes, low byte first. Bytes that are missing are 0.
use crate::edited::{write_edited, write_with};
use numbers::number::entry;
use std::io;
use std::io::{Read, Write};
use streams::files::next_file;
use streams::lent::{digest, fill};
use streams::lines::Line;
use writing_file::write::WriteRefusal;

// Where a question's parts stand.
const FILL: usize = 2;

const MODE: usize = 3;

const HEAD: usize = 4;

// Answers the question about this file.
pub(crate) fn answer<R: Read, W: Write>(
    input: &mut R,
    output: &mut W,
    file: &[u8],
    question: &mut [u8],
    buffer: &mut [u8],
) -> Option<()> {
    let length = next_file(input, question)?;
    let question = &question[..length];
    let room = u16::from_le_bytes([entry(question, 0), entry(question, 1)]) as usize;
    if buffer.len() < room {
        return None;
    }
    let _ = answer_in(&mut Line { output }, file, question, &mut buffer[..room]);
    Some(())
}

// Answers it in this buffer.
fn answer_in<W: Write>(
    output: &mut W,
    file: &[u8],
    question: &[u8],
    buffer: &mut [u8],
) -> io::Result<()> {
    fill(buffer, entry(question, FILL));
    match write_asked(file, question, buffer) {
        Ok(length) => write!(output, "wrote {length}")?,
        Err(why) => write!(output, "refused {} at {}", why.number(), 0)?,
    }
    writeln!(output, " {}", digest(buffer))
}

fn write_asked(file: &[u8], question: &[u8], buffer: &mut [u8]) -> Result<usize, WriteRefusal> {
    if question.len() <= HEAD {
        return write_rest(file, entry(question, MODE), &[], buffer);
    }
    write_rest(file, entry(question, MODE), &question[HEAD..], buffer)
}

fn write_rest(
    file: &[u8],
    mode: u8,
    rest: &[u8],
    buffer: &mut [u8],
) -> Result<usize, WriteRefusal> {
    if mode == 0 {
        return write_edited(file, rest, buffer);
    }
    let product = u32::from_le_bytes([entry(rest, 0), entry(rest, 1), entry(rest, 2), 0]);
    write_with(file, product as usize, buffer)
}
