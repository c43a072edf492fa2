// An input, read to its end or until the space is full. A read that fails is told apart from the end.
ghost use Rattle.std.specs.Prelude.{◌≤◌, length, IfOk};

use std::io;
use std::io::Read;

pub fn read_input<R: Read>(input: &mut R, space: &mut [u8]) -> io::Result<usize>
    ensures { IfOk result (λ n. n ≤ length space.new) }
{
    let mut done: usize = 0;
    // how far each read comes only the system knows, so no range has it
    while done < space.len() {
        match input.read(&mut space[done..])? {
            0 => return Ok(done),
            more => done += more,
        }
    }
    Ok(done)
}
