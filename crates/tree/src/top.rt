// A tree: its root and its height. Height 0 is an empty tree, which has no block; a leaf alone has height 1.
// Not an Option of a tree: the table of names would take 5,120 bytes, and 4,096 are allowed.
#[derive(Clone, Copy)]
pub struct Tree {
    pub root: u32,
    pub height: u8,
}
