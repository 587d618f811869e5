// The numbers of the answers, in the order of `Answer`. Numbers, since C reads them.
pub(crate) const DONE: u32 = 0;

pub(crate) const WORD: u32 = 1;

pub(crate) const PAIR: u32 = 2;

pub(crate) const NO: u32 = 3;

pub(crate) const FULL: u32 = 4;
