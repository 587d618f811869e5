// What a node keeps of a child: how many items are under it, its block, and a summary of the items.
#[derive(Clone, Copy)]
pub struct Child {
    pub count: u64,
    pub block: u64,
    pub summary: u64,
}
