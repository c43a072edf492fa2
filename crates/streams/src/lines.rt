// The lines that the programs print. What cannot be written is left out, without a word.
ghost use Rattle.std.specs.Prelude.{◌≡◌, Ok, None, length};
ghost use Rattle.std.specs.Io.{WritesAtMost};
ghost use Rattle.std.specs.Io.KnownBytes.{WriteAppends};

use std::io;
use std::io::Write;

// An output as a line's pieces are written to it: where one fails, the next is tried. Whoever wants to know writes to the output itself.
#[derive(Drop)]
pub struct Line<'a, W> {
    pub output: &'a mut W,
}

impl<W: Write> Write for Line<'_, W> {
    fn write(&mut self, buf: &[u8]) -> io::Result<usize>
        ensures bound { WritesAtMost result buf.now }
        ensures bytes { WriteAppends None None result buf.now }
        ensures all { result ≡ Ok (length buf.now) }
    {
        let _ = self.output.write_all(buf);
        Ok(buf.len())
    }

    fn flush(&mut self) -> io::Result<()> {
        self.output.flush()
    }
}
