// A page: up to 64 entries in order, which clauses see as a list. C says how they lie in its words.
ghost use Rattle.std.specs.Prelude.{◌≤◌, List};
ghost use Rattle.page.specs.Layout.{rows};
ghost use Rattle.page.specs.Sizes.{page_limit};

use crate::codec::Codec;
use crate::sizes::WORDS;
use std::marker::{Model, PhantomData};

mod balance;
mod edits;
mod images;
mod moves;
mod splices;

// Words and how many entries they hold. No Vec, since nothing may be allocated; and no array of C's items, since each call would owe that such an array is not too large.
#[derive(Drop)]
pub struct Page<C: Codec> {
    words: [u64; WORDS],
    len: usize,
    of: PhantomData<C>,
}

impl<C: Codec> Model for Page<C> {
    ghost Value = { List C.Item };

    ghost view = { λ p. rows C.width C.decode p.len p.words };

    ghost invariant = { λ p. p.len ≤ page_limit };
}
