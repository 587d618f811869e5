// Leaves: their entries are items.
ghost use Rattle.std.specs.Prelude.{◌≡◌, ◌<◌, ◌≤◌, ℕ, T, length, refl};
ghost use Rattle.page.specs.Layout.{entry_of_leaf};
ghost use Rattle.page.specs.Sizes.{page_limit};
ghost use Rattle.std.proofs.Common.{length-append};

use super::Level;
use crate::child::Child;
use crate::kind::Kind;
use crate::page::Page;
use std::marker::PhantomData;

pub struct Leaves<K> {
    of: PhantomData<K>,
}

impl<K: Kind> Level for Leaves<K> {
    type Kind = K;

    type Entry = K::Leaf;

    ghost read = { K.layout.items };

    ghost most = { K.layout.leaf_cap };

    ghost items_under = { length };

    ghost entry = { entry_of_leaf K.layout };

    ghost reads = { K.leaves };

    ghost fits = { K.leaf_fits };

    ghost wide = { K.lawful.leaf_room };

    ghost adds = { length-append };

    ghost placed = { λ _ _. refl };

    fn most() -> usize {
        K::leaf_cap()
    }

    fn entry(block: u64, page: &Page<K::Leaf>) -> Child {
        leaf_entry::<K>(block, page)
    }
}

// Of a leaf at `block`: its items are never too many to be counted.
pub fn leaf_entry<K: Kind>(block: u64, page: &Page<K::Leaf>) -> Child
    requires { 0 < length page.now }
    ensures value { result ≡ entry_of_leaf K.Kind.layout block page.now }
    ensures valid { T (K.Node.Codec.valid result) }
    ensures few { length page.now ≤ page_limit }
{
    Child {
        count: page.len() as u64,
        block,
        summary: K::leaf_summary(page),
    }
}
