// What stands in the node above for what was one page: its entry, and that of a second page where there are two now.
use page::child::Child;

#[derive(Clone, Copy)]
pub struct Risen {
    pub first: Child,
    pub second: Option<Child>,
}
