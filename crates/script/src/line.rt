// What a line asks.
use things::Op;

#[derive(Clone, Copy)]
pub enum Line {
    Call(Op),
    Refuse(u64),
    Room(u64),
    Held,
}

// Why a text is no line: no keyword of the table with so many numbers stands there.
#[derive(Clone, Copy, Debug, PartialEq, Eq)]
pub struct NotALine;
