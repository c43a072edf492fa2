// What comes of a text: the number of states, the root and a digest of the pool, or the refusal.
use expression::draw::expression;
use std::io;
use std::io::Write;
use streams::lent::RunningDigest;
use streams::lines::Line;
use tables::tables::Pool;

fn digest_of(pool: &Pool) -> u64 {
    let mut digest = RunningDigest::new();
    digest.number(pool.count as u16);
    digest.bytes(&pool.finals);
    digest.bytes(&pool.arcs);
    digest.sum()
}

// Whether the line ends is told.
pub(crate) fn answer<W: Write>(output: &mut W, text: &[u8]) -> io::Result<()> {
    let mut line = Line { output };
    let _ = match expression(text) {
        Ok(drawing) => {
            let (pool, root) = (drawing.pool, drawing.root.0);
            write!(line, "pool {} {root} {}", pool.count, digest_of(&pool))
        }
        Err(why) => write!(line, "refused {} at {}", why.number(), why.place()),
    };
    line.output.write_all(b"\n")
}
