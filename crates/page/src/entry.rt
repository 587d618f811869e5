// A pair of a table.
#[derive(Clone, Copy)]
pub struct Pair {
    pub key: u64,
    pub word: u64,
}
