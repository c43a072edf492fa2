// Reads a session file from standard input and prints the line of its verdict.
#![tactic(auto)]

use checking_answer::{MOST_LINE, whole_line};
use numbers::refusal::MOST_BYTES;
use std::io;
use streams::input::read_input;
use streams::print_front;

// One byte more than a file may have.
const ROOM: usize = MOST_BYTES + 1;

fn main(rt: HostRuntime) {
    let mut file = [0u8; ROOM];
    match read_input(&mut rt.stdin(), &mut file) {
        Ok(length) => answer(&rt, &file[..length]),
        Err(_) => {
            let _ = eprintln!(rt; "swarmbanner: standard input cannot be read");
        }
    }
}

// Prints the line of a file.
fn answer(rt: &(impl Print + Eprint), file: &[u8]) {
    let mut line = [0u8; MOST_LINE];
    let end = whole_line(file, &mut line);
    if !print_front(&mut io::writer(rt), &line, end) {
        let _ = eprintln!(rt; "swarmbanner: the line cannot be written");
    }
}
