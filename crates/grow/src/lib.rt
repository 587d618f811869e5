// An item comes into a tree: pages split where they are full, into blocks got in advance.
#![tactic(auto)]

pub mod climb;
pub mod insert;
pub mod leaf;
pub mod root;
pub mod settle;
mod taken;
