// The numbers of the calls, in the order of `Op`. Numbers, since C passes them; an enum would need a second table, to them and back.
pub(crate) const ROW: u32 = 0;

pub(crate) const TABLE: u32 = 1;

pub(crate) const FREE: u32 = 2;

pub(crate) const LENGTH: u32 = 3;

pub(crate) const AT: u32 = 4;

pub(crate) const SET: u32 = 5;

pub(crate) const INSERT: u32 = 6;

pub(crate) const DELETE: u32 = 7;

pub(crate) const SPLIT: u32 = 8;

pub(crate) const JOIN: u32 = 9;

pub(crate) const PUT: u32 = 10;

pub(crate) const GET: u32 = 11;

pub(crate) const DROP: u32 = 12;

pub(crate) const LEAST: u32 = 13;

pub(crate) const COUNT: u32 = 14;

pub(crate) const NTH: u32 = 15;

pub(crate) const CUT: u32 = 16;

pub(crate) const MERGE: u32 = 17;

// How many calls there are.
pub(crate) const CODES: u32 = 18;
