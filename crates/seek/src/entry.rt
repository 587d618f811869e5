// Single entries of pages, read and written where they lie.
ghost use Rattle.std.specs.Prelude.{◌≡◌, ◌+◌, ◌≤◌, take, drop};
ghost use Rattle.std.proofs.Math.Seq.{paste};
ghost use Rattle.store.specs.Memory.{Stored, asked, wrote};
ghost use Rattle.tree.specs.Reads.{word_of_entry};

use page::codec::Codec;
use page::sizes::WORDS;
use store::Store;
use store::words::{load, store};
use tree::reads::entry_word;

// The words of entry i of the page at block b.
pub fn load_entry<C: Codec, W: Store>(m: &mut W::Memory, b: u32, i: u32) -> [u64; WORDS]
    requires asks { C.Codec.width ≤ (W.Store.memory m.old).left }
    requires there { Stored (W.Store.memory m.old).block b }
    requires inside { word_of_entry C.Codec.width i + C.Codec.width ≤ 64 }
    ensures words { take C.Codec.width result ≡ take C.Codec.width (drop (word_of_entry C.Codec.width i) ((W.Store.memory m.old).block b)) }
    ensures same { W.Store.memory m.new ≡ asked C.Codec.width (W.Store.memory m.old) }
{
    load::<W, WORDS>(m, b, entry_word::<C>(i), C::width() as u32)
}

// The first of these words become those of entry i of the page at block b.
pub fn store_entry<C: Codec, W: Store>(m: &mut W::Memory, b: u32, i: u32, words: &[u64; WORDS])
    requires asks { C.Codec.width ≤ (W.Store.memory m.old).left }
    requires there { Stored (W.Store.memory m.old).block b }
    requires inside { word_of_entry C.Codec.width i + C.Codec.width ≤ 64 }
    ensures { W.Store.memory m.new ≡ wrote C.Codec.width b (paste ((W.Store.memory m.old).block b) (word_of_entry C.Codec.width i) words.now C.Codec.width) (W.Store.memory m.old) }
{
    store::<W, WORDS>(m, b, entry_word::<C>(i), C::width() as u32, words);
}
