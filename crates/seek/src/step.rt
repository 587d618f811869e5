// A step down from a node: a child, its block, a place among the items under it, and how many children the node has.
#[derive(Clone, Copy)]
pub struct Step {
    pub child: u32,
    pub block: u64,
    pub rest: u64,
    pub entries: u32,
}
