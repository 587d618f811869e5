// How much there is room for; specs/Sizes.antt has the same numbers.

// The words of a block, those before its entries, and those that the entries may take.
pub const BLOCK: usize = 64;

pub const HEAD: usize = 2;

pub const ROOM: usize = 62;

// The words of a page: 64 entries of at most three words.
pub const WORDS: usize = 192;

// How many entries stand in the leaves and nodes of rows and tables.
pub const ROW_LEAF: usize = 62;

pub const ROW_NODE: usize = 31;

pub const TABLE_LEAF: usize = 31;

pub const TABLE_NODE: usize = 20;
