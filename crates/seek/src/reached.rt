// Where a path down a tree ended.
use tree::path::Path;

// A leaf, the path to it, a place in it, and how many pages in a row from the leaf upward are full.
#[derive(Clone, Copy)]
pub struct Reached {
    pub path: Path,
    pub leaf: u32,
    pub at: u64,
    pub full: u32,
}
