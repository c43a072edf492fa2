// What a caller lends for judging: the two tables of a walk, and the buffer for the contents that are shown. That they are ready stays a clause of each
// function: the check does not cover a ghost field beside a `&mut`.
#[derive(Drop)]
pub struct Scratch<'a> {
    pub seen: &'a mut [u16],
    pub queue: &'a mut [u16],
    pub contents: &'a mut [u8],
}
