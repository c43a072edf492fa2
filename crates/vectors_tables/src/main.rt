// Answers a stream of records by a line each: files that are read, tables that are written, texts that are drawn.
#![tactic(auto)]

mod digest;
mod edited;
mod empty;
mod readings;
mod texts;
mod writings;

use std::io::{Read, Write};
use streams::files::{next_file, next_tag};

// More records than a stream has: every loop has an end.
const MOST_RECORDS: usize = 200000;

// Bytes of a file or a text, of a question, and of the longest buffer.
const SPACE: usize = 65536;

// What is asked.
const READING: u8 = b'r';

const WRITING: u8 = b'w';

const EXPRESSION: u8 = b'e';

fn main(rt: HostRuntime) {
    let mut input = rt.stdin();
    let mut output = rt.stdout();
    let mut file = [0u8; SPACE];
    let mut question = [0u8; SPACE];
    let mut buffer = [0u8; SPACE];
    for _ in 0..MOST_RECORDS {
        let told = answer_next(
            &mut input,
            &mut output,
            &mut file,
            &mut question,
            &mut buffer,
        );
        if told.is_none() {
            return;
        }
    }
}

// Answers the next record of the stream, if there is one.
fn answer_next<R: Read, W: Write>(
    input: &mut R,
    output: &mut W,
    file: &mut [u8],
    question: &mut [u8],
    buffer: &mut [u8],
) -> Option<()> {
    let tag = next_tag(input)?;
    let length = next_file(input, file)?;
    let file = &file[..length];
    match tag {
        READING => readings::answer(output, file).ok(),
        WRITING => writings::answer(input, output, file, question, buffer),
        EXPRESSION => texts::answer(output, file).ok(),
        _ => None,
    }
}
