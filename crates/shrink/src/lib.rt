// An item leaves a tree: a page that is too empty is put together with a neighbour, or shares with it.
#![tactic(auto)]

mod climb;
pub mod delete;
pub mod put;
pub mod share;
pub mod tier;
mod trim;
mod turn;
