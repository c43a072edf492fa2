// Where judging has come to: the item that is judged next. Where no item is left, there is no cursor.
use tables::kinds::ControlState;

#[derive(Clone, Copy)]
pub enum Cursor {
    Start,
    // control state, and transition whose machine is in the from-state there
    Step(ControlState, usize),
    // bad entry
    Entry(usize),
}
