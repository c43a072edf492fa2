// The tables of a session seen where they lie: what is small by value, the five large ones lent.
use crate::head::Head;

#[derive(Clone, Copy, Debug, PartialEq, Eq)]
pub struct TablesView<'a> {
    pub head: Head,
    pub rows: &'a [u8],
    pub finals: &'a [u8],
    pub arcs: &'a [u8],
    pub roots: &'a [u8],
    pub entries: &'a [u8],
}
