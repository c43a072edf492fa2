// What reading found of a file: the refusal or the counts, and a digest of every entry of the tables, used or not.
use crate::digest::digest;
use crate::empty::empty_tables;
use numbers::refusal::Refusal;
use reading_file::reading::read;
use std::io;
use std::io::Write;
use streams::lines::Line;
use tables::tables::Tables;

fn refused<W: Write>(output: &mut W, why: Refusal) -> io::Result<()> {
    let told = digest(&empty_tables());
    write!(output, "refused {} at {} {told}", why.number(), why.place())
}

fn found<W: Write>(output: &mut W, t: &Tables) -> io::Result<()> {
    let (m, q) = (&t.machines, &t.queues);
    write!(
        output,
        "read {} {} {} {}",
        m.count, m.product, q.count, q.sum
    )?;
    let (rows, states, bad) = (t.transitions.count, t.pool.count, t.bad.count);
    write!(output, " {rows} {states} {bad} {}", digest(t))
}

// Whether the line ends is told.
pub(crate) fn answer<W: Write>(output: &mut W, file: &[u8]) -> io::Result<()> {
    let mut line = Line { output };
    let _ = match read(file) {
        Ok(t) => found(&mut line, &t),
        Err(why) => refused(&mut line, why),
    };
    line.output.write_all(b"\n")
}
