// The line of what a check answers.
ghost use Rattle.std.specs.Prelude.{◌≡◌, ◌+◌, ◌*◌, ◌≤◌, length};
ghost use Rattle.numbers.specs.Put.{Put};
ghost use Rattle.theory_model.specs.Verdict.{closed, outside, leaves, bad};
ghost use Rattle.theory_model.specs.Line.{line, refused_line};
ghost use Rattle.verdicts.specs.Said.{shown_in};
ghost use Rattle.checking_line.specs.Said.{LineRoom, Fits, PutsLine, Writes};

use crate::put::{put_listed, put_spaced};
use numbers::put::{put_byte, put_word};
use tables::tables::CONTENTS_LEAST;
use verdicts::verdict::{CheckRefusal, Failing, Verdict};

// Whether a buffer of so many bytes has room for any line that shows so many messages of the contents.
fn has_room(room: usize, contents: usize, shown: usize) -> bool
    ensures { LineRoom room contents shown result }
{
    shown <= contents && shown <= CONTENTS_LEAST && 4 * shown + 52 <= room
}

fn put_closed(s: &mut [u8], pairs: usize) -> usize
    requires { 52 ≤ length s.old }
    ensures { Put s.old 0 18 (line (closed pairs)) s.new result }
{
    let word = put_word(s, 0, b"closed");
    let number = put_spaced(s, word, 10, pairs);
    put_byte(s, number, b'\n')
}

fn put_outside(s: &mut [u8]) -> usize
    requires { 52 ≤ length s.old }
    ensures { Put s.old 0 8 (line outside) s.new result }
{
    let word = put_word(s, 0, b"outside");
    put_byte(s, word, b'\n')
}

fn put_refused(s: &mut [u8], cause: usize, place: usize) -> usize
    requires { 52 ≤ length s.old }
    ensures { Put s.old 0 33 (refused_line cause place) s.new result }
{
    let word = put_word(s, 0, b"refused");
    let number = put_spaced(s, word, 10, cause);
    let before = put_word(s, number, b" at");
    let after = put_spaced(s, before, 10, place);
    put_byte(s, after, b'\n')
}

fn put_leaves(s: &mut [u8], control: usize, transition: usize, shown: &[u8], far: usize) -> usize
    requires { 4 * length shown.now + 52 ≤ length s.old }
    ensures { Put s.old 0 (4 * length shown.now + 52) (line (leaves control transition shown.now far)) s.new result }
{
    let word = put_word(s, 0, b"leaves");
    let from = put_spaced(s, word, 10, control);
    let step = put_spaced(s, from, 10, transition);
    let counted = put_spaced(s, step, 10, shown.len());
    let followed = put_spaced(s, counted, 10, far);
    let messages = put_listed(s, followed, shown);
    put_byte(s, messages, b'\n')
}

fn put_bad(s: &mut [u8], entry: usize, shown: &[u8]) -> usize
    requires { 4 * length shown.now + 52 ≤ length s.old }
    ensures { Put s.old 0 (4 * length shown.now + 27) (line (bad entry shown.now)) s.new result }
{
    let word = put_word(s, 0, b"bad");
    let number = put_spaced(s, word, 10, entry);
    let counted = put_spaced(s, number, 10, shown.len());
    let messages = put_listed(s, counted, shown);
    put_byte(s, messages, b'\n')
}

// The line, which the buffer has room for.
fn put_line(s: &mut [u8], answer: Result<Verdict, CheckRefusal>, contents: &[u8]) -> usize
    requires { Fits s.old contents.now (shown_in answer) }
    ensures { PutsLine s.old answer contents.now s.new result }
{
    match answer {
        Ok(Verdict::Closed(pairs)) => put_closed(s, pairs),
        Ok(Verdict::Fails(Failing::Outside)) => put_outside(s),
        Ok(Verdict::Fails(Failing::Leaves(control, transition, shown, far))) => {
            let from = usize::from(control.0);
            put_leaves(s, from, transition, &contents[..shown], far)
        }
        Ok(Verdict::Fails(Failing::Bad(entry, shown))) => put_bad(s, entry, &contents[..shown]),
        Err(why) => put_refused(s, why.number(), why.place()),
    }
}

// The line of what a check answers, at the front of the buffer: its length, or 0 where there is no room for it.
pub fn write_line(
    buffer: &mut [u8],
    answer: Result<Verdict, CheckRefusal>,
    contents: &[u8],
) -> usize
    ensures { Writes buffer.old answer contents.now buffer.new result }
{
    if has_room(buffer.len(), contents.len(), messages_shown(answer)) {
        put_line(buffer, answer, contents)
    } else {
        0
    }
}

// How many messages the line shows.
fn messages_shown(answer: Result<Verdict, CheckRefusal>) -> usize
    ensures { result ≡ shown_in answer }
{
    match answer {
        Ok(Verdict::Fails(failing)) => failing.shown(),
        _ => 0,
    }
}
