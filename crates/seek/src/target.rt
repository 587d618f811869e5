// What a path down a tree leads to.
#[derive(Clone, Copy)]
pub enum Target {
    // An item.
    Item,
    // Where an item can come: before an item, or at the end.
    Gap,
}
