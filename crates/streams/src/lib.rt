// Fronts of lent memory, filled from a reader and written to a writer: the programs pass standard input and standard output.
#![tactic(auto)]

pub mod files;
pub mod input;
pub mod lent;
pub mod lines;

ghost use Rattle.std.specs.Prelude.{◌≤◌, ◌≡◌, true, length};

use std::io::{Read, Write};

// Fills the front of the space; false where the space is too short or the input ends before.
pub fn fill_front<R: Read>(input: &mut R, space: &mut [u8], n: usize) -> bool
    ensures { result ≡ true → n ≤ length space.new }
{
    n <= space.len() && input.read_exact(&mut space[..n]).is_ok()
}

// Prints the front of the space at once; false where the space is too short or not all could be written.
pub fn print_front<W: Write>(output: &mut W, space: &[u8], n: usize) -> bool
    ensures { result ≡ true → n ≤ length space.now }
{
    n <= space.len() && output.write_all(&space[..n]).is_ok()
}
