// The line of a file with memory that is just enough, and with each part of it one short.
ghost use Rattle.std.specs.Prelude.{◌<◌};

use checking_answer::{MOST_LINE, answer as answer_in};
use std::io::Write;
use streams::print_front;

pub(crate) fn answer<W: Write>(output: &mut W, file: &[u8]) -> Option<()> {
    let _ = answer_with::<W, 32512, 32512, 32768>(output, file);
    let _ = answer_with::<W, 32511, 32512, 32768>(output, file);
    let _ = answer_with::<W, 32512, 32511, 32768>(output, file);
    answer_with::<W, 32512, 32512, 32767>(output, file)
}

// With scratch tables and a contents buffer of these lengths.
fn answer_with<W: Write, const SEEN: usize, const QUEUE: usize, const CONTENTS: usize>(
    output: &mut W,
    file: &[u8],
) -> Option<()>
    requires seen { SEEN < 65536 }
    requires queue { QUEUE < 65536 }
    requires contents { CONTENTS < 65536 }
{
    let mut seen = [7u16; SEEN];
    let mut queue = [7u16; QUEUE];
    let mut contents = [7u8; CONTENTS];
    let mut line = [0u8; MOST_LINE];
    let end = answer_in(file, &mut seen, &mut queue, &mut contents, &mut line);
    print_front(output, &line, end).then_some(())
}
