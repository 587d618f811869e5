// Single items of a tree.
ghost use Rattle.std.specs.Prelude.{◌≡◌, ◌<◌, ◌≤◌, List, ◌∷◌, ◌++◌, length, set as put, slice_index_or};
ghost use Rattle.page.specs.Sizes.{block_room};
ghost use Rattle.store.specs.Memory.{Stored};
ghost use Rattle.tree.specs.Pages.{Reading, Writing};
ghost use Rattle.tree.specs.Trees.{holds, Lies};
ghost use Rattle.seek.specs.Asks.{item_asks, at_asks, set_asks};
ghost use Rattle.seek.specs.Items.{Updated};

use crate::descend::descend;
use crate::entry::{load_entry, store_entry};
use crate::target::Target;
use page::codec::Codec;
use page::kind::Kind;
use page::sizes::WORDS;
use store::Store;
use tree::top::Tree;

// Which entry of a leaf is at a place.
fn entry_number(at: u64) -> u32
    requires { at < block_room }
    ensures { result ≡ at }
{
    at as u32
}

// The item at a place of a leaf.
fn read_item<K: Kind, W: Store>(m: &mut W::Memory, leaf: u32, at: u64) -> K::Item
    requires asks { item_asks ≤ (W.Store.memory m.old).left }
    requires there { Stored (W.Store.memory m.old).block leaf }
    requires few { length (K.Kind.layout.items ((W.Store.memory m.old).block leaf)) ≤ K.Kind.layout.leaf_cap }
    requires inside { at < length (K.Kind.layout.items ((W.Store.memory m.old).block leaf)) }
    ensures value { (d : K.Item) → result ≡ slice_index_or (K.Kind.layout.items ((W.Store.memory m.old).block leaf)) at d }
    ensures same { Reading item_asks (W.Store.memory m.old) (W.Store.memory m.new) }
{
    let words = load_entry::<K::Leaf, W>(m, leaf, entry_number(at));
    K::Leaf::read(&words, 0)
}

// The item at a place of a leaf becomes x.
fn write_item<K: Kind, W: Store>(m: &mut W::Memory, leaf: u32, at: u64, x: K::Item)
    requires asks { item_asks ≤ (W.Store.memory m.old).left }
    requires there { Stored (W.Store.memory m.old).block leaf }
    requires few { length (K.Kind.layout.items ((W.Store.memory m.old).block leaf)) ≤ K.Kind.layout.leaf_cap }
    requires inside { at < length (K.Kind.layout.items ((W.Store.memory m.old).block leaf)) }
    ensures { Writing item_asks K.Kind.layout.items leaf (put (K.Kind.layout.items ((W.Store.memory m.old).block leaf)) at x) (W.Store.memory m.old) (W.Store.memory m.new) }
{
    let mut words = [0; WORDS];
    K::Leaf::write(x, &mut words, 0);
    store_entry::<K::Leaf, W>(m, leaf, entry_number(at), &words);
}

// The item at i.
pub fn at<K: Kind, W: Store>(m: &mut W::Memory, t: Tree, i: u64) -> K::Item
    requires lies { Lies K.Kind.layout (W.Store.memory m.old) t }
    requires there { i < length (holds K.Kind.layout (W.Store.memory m.old).block t) }
    requires asks { at_asks ≤ (W.Store.memory m.old).left }
    ensures value { (d : K.Item) → result ≡ slice_index_or (holds K.Kind.layout (W.Store.memory m.old).block t) i d }
    ensures same { Reading at_asks (W.Store.memory m.old) (W.Store.memory m.new) }
{
    let place = descend::<K, W>(m, t, i, Target::Item);
    read_item::<K, W>(m, place.leaf, place.at)
}

// The item at i becomes x, of which the same is kept as of what stood there.
pub fn set<K: Kind, W: Store>(m: &mut W::Memory, t: Tree, i: u64, x: K::Item)
    requires lies { Lies K.Kind.layout (W.Store.memory m.old) t }
    requires there { i < length (holds K.Kind.layout (W.Store.memory m.old).block t) }
    requires alike { (xs ys : List K.Item) → K.Kind.layout.summary (xs ++ (x ∷ ys)) ≡ K.Kind.layout.summary (xs ++ (slice_index_or (holds K.Kind.layout (W.Store.memory m.old).block t) i x ∷ ys)) }
    requires asks { set_asks ≤ (W.Store.memory m.old).left }
    ensures { Updated K.Kind.layout t i x (W.Store.memory m.old) (W.Store.memory m.new) }
{
    let place = descend::<K, W>(m, t, i, Target::Item);
    write_item::<K, W>(m, place.leaf, place.at, x);
}
