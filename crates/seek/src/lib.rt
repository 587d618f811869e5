// The path down to a place in a tree, and what reads and sets an item.
#![tactic(auto)]

mod choose;
pub mod descend;
mod entry;
pub mod items;
pub mod reached;
pub mod size;
mod step;
pub mod target;
