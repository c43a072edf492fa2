// Answers a stream of records by their lines: files that are checked, with memory enough or too little, questions of membership, replays.
#![tactic(auto)]

mod lent;
mod members;
mod memory;
mod replays;
mod report;
mod verdicts_of;

use std::io::{Read, Write};
use streams::files::{next_file, next_tag};

// More records than a stream has: every loop has an end.
const MOST_RECORDS: usize = 200000;

// Bytes of a file, of contents or a trace, and of a replay's memory.
const SPACE: usize = 65536;

// What is asked.
const VERDICT: u8 = b'v';

const MEMORY: u8 = b's';

const MEMBERSHIP: u8 = b'm';

const REPLAY: u8 = b't';

fn main(rt: HostRuntime) {
    let mut input = rt.stdin();
    let mut output = rt.stdout();
    let mut file = [0u8; SPACE];
    let mut second = [0u8; SPACE];
    let mut third = [0u8; SPACE];
    for _ in 0..MOST_RECORDS {
        let told = answer_next(&mut input, &mut output, &mut file, &mut second, &mut third);
        if told.is_none() {
            return;
        }
    }
}

// Answers the next record of the stream, if there is one. Each of the two programs has this for itself, since what it lends to an answer differs. The contents of a question, or a trace, go into the second space, the memory of a replay is
// the third.
fn answer_next<R: Read, W: Write>(
    input: &mut R,
    output: &mut W,
    file: &mut [u8],
    second: &mut [u8],
    third: &mut [u8],
) -> Option<()> {
    let tag = next_tag(input)?;
    let length = next_file(input, file)?;
    let file = &file[..length];
    match tag {
        VERDICT => verdicts_of::answer(output, file),
        MEMORY => memory::answer(output, file),
        MEMBERSHIP => members::answer(input, output, file, second),
        REPLAY => replays::answer(input, output, file, second, third),
        _ => None,
    }
}
