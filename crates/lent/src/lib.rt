// Blocks of 64 words that lie in a lent slice.
#![tactic(auto)]

mod lent;
mod stack;

pub use lent::{BLOCK_WORDS, Lent, MOST_BLOCKS};
