// The line of the verdict on a file.
use checking_answer::{MOST_LINE, whole_line};
use std::io::Write;
use streams::print_front;

pub(crate) fn answer<W: Write>(output: &mut W, file: &[u8]) -> Option<()> {
    let mut line = [0u8; MOST_LINE];
    let end = whole_line(file, &mut line);
    print_front(output, &line, end).then_some(())
}
