// Single words of the pages of a tree, read where they lie.
ghost use Rattle.std.specs.Prelude.{◌≡◌, ◌+◌, ◌*◌, ◌<◌, ◌≤◌, length, slice_index, slice_index_or};
ghost use Rattle.store.specs.Memory.{Stored, asked};
ghost use Rattle.tree.specs.Paths.{none};
ghost use Rattle.tree.specs.Reads.{word_of_entry};

use page::codec::Codec;
use page::kind::Kind;
use page::sizes::HEAD;
use store::Store;

// The word that says how many entries there are.
const ENTRIES: u32 = 0;

// How many entries the page at block b has.
pub fn number_of_entries<W: Store>(m: &mut W::Memory, b: u32) -> u64
    requires asks { 0 < (W.Store.memory m.old).left }
    requires there { Stored (W.Store.memory m.old).block b }
    ensures value { result ≡ slice_index ((W.Store.memory m.old).block b) 0 }
    ensures same { W.Store.memory m.new ≡ asked 1 (W.Store.memory m.old) }
{
    W::get(m, b, ENTRIES)
}

// The word in which entry i begins, or ends the one before.
pub fn entry_word<C: Codec>(i: u32) -> u32
    requires { word_of_entry C.Codec.width i ≤ 64 }
    ensures { result ≡ word_of_entry C.Codec.width i }
{
    HEAD as u32 + C::width() as u32 * i
}

// How many children the node at block b has.
pub fn number_of_children<K: Kind, W: Store>(m: &mut W::Memory, b: u32) -> u32
    requires asks { 0 < (W.Store.memory m.old).left }
    requires there { Stored (W.Store.memory m.old).block b }
    requires few { length (K.Kind.layout.children ((W.Store.memory m.old).block b)) ≤ K.Kind.layout.node_cap }
    ensures value { result ≡ length (K.Kind.layout.children ((W.Store.memory m.old).block b)) }
    ensures small { result ≤ 62 }
    ensures same { W.Store.memory m.new ≡ asked 1 (W.Store.memory m.old) }
{
    number_of_entries::<W>(m, b) as u32
}

// How many items are under child i of the node at block b. Not one function with child_block: another word is read, and another law of the kind says what stands there.
pub fn child_count<K: Kind, W: Store>(m: &mut W::Memory, b: u32, i: u32) -> u64
    requires asks { 0 < (W.Store.memory m.old).left }
    requires there { Stored (W.Store.memory m.old).block b }
    requires few { length (K.Kind.layout.children ((W.Store.memory m.old).block b)) ≤ K.Kind.layout.node_cap }
    requires inside { i < length (K.Kind.layout.children ((W.Store.memory m.old).block b)) }
    ensures value { result ≡ (slice_index_or (K.Kind.layout.children ((W.Store.memory m.old).block b)) i none).count }
    ensures same { W.Store.memory m.new ≡ asked 1 (W.Store.memory m.old) }
{
    let word = entry_word::<K::Node>(i);
    W::get(m, b, word)
}

// The block of child i of the node at block b.
pub fn child_block<K: Kind, W: Store>(m: &mut W::Memory, b: u32, i: u32) -> u64
    requires asks { 0 < (W.Store.memory m.old).left }
    requires there { Stored (W.Store.memory m.old).block b }
    requires few { length (K.Kind.layout.children ((W.Store.memory m.old).block b)) ≤ K.Kind.layout.node_cap }
    requires inside { i < length (K.Kind.layout.children ((W.Store.memory m.old).block b)) }
    ensures value { result ≡ (slice_index_or (K.Kind.layout.children ((W.Store.memory m.old).block b)) i none).block }
    ensures same { W.Store.memory m.new ≡ asked 1 (W.Store.memory m.old) }
{
    let word = entry_word::<K::Node>(i);
    W::get(m, b, word + 1)
}
