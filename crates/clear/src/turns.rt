// A turn of giving back a tree: to the next child of a node, and down to it.
ghost use Rattle.std.specs.Prelude.{◌<◌, ◌≤◌, length, MatchOption};
ghost use Rattle.store.specs.Memory.{Stored};
ghost use Rattle.tree.specs.Down.{turn};
ghost use Rattle.tree.specs.Sizes.{longest};
ghost use Rattle.clear.specs.Visits.{Childless, NextChild, GoneDown};

use page::kind::Kind;
use store::Store;
use tree::path::{Branch, Path};
use tree::reads::{child_block, number_of_children};

// The block of the child that is next, or none where all children have been.
pub fn next_child<K: Kind, W: Store>(m: &mut W::Memory, at: Branch) -> Option<u32>
    requires asks { 2 ≤ (W.Store.memory m.old).left }
    requires there { Stored (W.Store.memory m.old).block at.block }
    requires few { length (K.Kind.layout.children ((W.Store.memory m.old).block at.block)) ≤ K.Kind.layout.node_cap }
    requires low { at.place < length (K.Kind.layout.children ((W.Store.memory m.old).block at.block)) → turn K.Kind.layout (W.Store.memory m.old).block at.block at.place < 1048576 }
    ensures { MatchOption result (Childless K.Kind.layout at (W.Store.memory m.old) (W.Store.memory m.new)) (λ c. NextChild K.Kind.layout at c (W.Store.memory m.old) (W.Store.memory m.new)) }
{
    if at.place < number_of_children::<K, W>(m, at.block) {
        Some(child_block::<K, W>(m, at.block, at.place) as u32)
    } else {
        None
    }
}

// A block below the path: a leaf goes back, and a node goes on the path.
pub fn go_down<W: Store>(m: &mut W::Memory, path: &mut Path, block: u32, height: u8)
    requires asks { 0 < (W.Store.memory m.old).left }
    requires there { Stored (W.Store.memory m.old).block block }
    requires room { height ≤ longest }
    ensures { GoneDown height block path.old (W.Store.memory m.old) path.new (W.Store.memory m.new) }
{
    if path.len() + 1 < height as usize {
        path.push(Branch { block, place: 0 });
    } else {
        W::release(m, block);
    }
}
