// Nodes: their entries are children.
ghost use Rattle.std.specs.Prelude.{◌≡◌, ◌+◌, ◌^◌, ◌<◌, ◌≤◌, T, refl};
ghost use Rattle.page.specs.Layout.{counts, entry_of};
ghost use Rattle.page.specs.Readers.{counts_add};
ghost use Rattle.std.proofs.Common.{rules};

use super::Level;
use crate::child::Child;
use crate::kind::Kind;
use crate::page::Page;
use std::marker::PhantomData;

pub struct Nodes<K> {
    of: PhantomData<K>,
}

impl<K: Kind> Level for Nodes<K> {
    type Kind = K;

    type Entry = K::Node;

    ghost read = { K.layout.children };

    ghost most = { K.layout.node_cap };

    ghost items_under = { counts };

    ghost entry = { entry_of K.layout };

    ghost reads = { K.nodes };

    ghost fits = { K.node_fits };

    ghost wide = { Prim.search rules };

    ghost adds = { counts_add };

    ghost placed = { λ _ _. refl };

    fn most() -> usize {
        K::node_cap()
    }

    fn entry(block: u64, page: &Page<K::Node>) -> Child {
        let first = page.get(0);
        let mut all = Child { block, ..first };
        for i in 1..page.len() {
            all = joined::<K>(all, page.get(i));
        }
        all
    }
}

// Two neighbours as one, at the block of the first.
fn joined<K: Kind>(left: Child, right: Child) -> Child
    requires few { left.count + right.count < 2 ^ 64 }
    requires left { T (K.Node.Codec.valid left) }
    requires right { T (K.Node.Codec.valid right) }
    ensures value { result ≡ record { count = left.count + right.count; block = left.block; summary = K.Kind.layout.join left.summary right.summary } }
    ensures valid { T (K.Node.Codec.valid result) }
{
    Child {
        count: left.count + right.count,
        block: left.block,
        summary: K::join(left.summary, right.summary),
    }
}
