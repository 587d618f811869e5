// What a call may ask, and hold.

// So often any call may ask.
pub const ASKS: u64 = 16384;

// So often more, for each block that is held, where blocks are given back.
pub(crate) const ASKS_A_BLOCK: u64 = 128;

// So many blocks more may be held during a call.
pub(crate) const ROOM: u64 = 64;
