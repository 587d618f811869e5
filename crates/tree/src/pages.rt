// Pages of a tree, read from blocks and written to them.
ghost use Rattle.std.specs.Prelude.{◌≡◌, ℕ, ◌+◌, ◌*◌, ◌<◌, ◌≤◌, List, length, slice_index};
ghost use Rattle.page.specs.Layout.{imaged};
ghost use Rattle.page.specs.Sizes.{block_room, page_limit};
ghost use Rattle.store.specs.Memory.{Stored};
ghost use Rattle.tree.specs.Pages.{page_asks, Reading, Writing};

use crate::reads::{entry_word, number_of_entries};
use page::codec::Codec;
use page::level::Level;
use page::page::Page;
use page::sizes::BLOCK;
use store::Store;
use store::words::{load, store};

// The page at block b: only the words that it uses are read.
pub fn read_page<C: Codec, W: Store>(m: &mut W::Memory, b: u32) -> Page<C>
    requires asks { page_asks ≤ (W.Store.memory m.old).left }
    requires there { Stored (W.Store.memory m.old).block b }
    requires fits { slice_index ((W.Store.memory m.old).block b) 0 * C.Codec.width ≤ block_room }
    ensures after { result ≡ imaged C.Codec.width C.Codec.decode ((W.Store.memory m.old).block b) }
    ensures len { length result ≡ slice_index ((W.Store.memory m.old).block b) 0 }
    ensures few { length result ≤ page_limit }
    ensures same { Reading page_asks (W.Store.memory m.old) (W.Store.memory m.new) }
{
    let entries = number_of_entries::<W>(m, b) as u32;
    let image = load::<W, BLOCK>(m, b, 0, entry_word::<C>(entries));
    Page::unpack(&image)
}

// The page goes to block b: only the words that it uses are written.
pub fn write_page<C: Codec, W: Store>(m: &mut W::Memory, b: u32, page: &Page<C>)
    requires asks { page_asks ≤ (W.Store.memory m.old).left }
    requires there { Stored (W.Store.memory m.old).block b }
    requires fits { length page.now * C.Codec.width ≤ block_room }
    ensures { Writing page_asks (imaged C.Codec.width C.Codec.decode) b page.now (W.Store.memory m.old) (W.Store.memory m.new) }
{
    let mut image = [0; BLOCK];
    page.pack(&mut image);
    store::<W, BLOCK>(m, b, 0, entry_word::<C>(page.len() as u32), &image);
}

// A page of a level, read.
pub fn load_page<L: Level, W: Store>(m: &mut W::Memory, b: u32) -> Page<L::Entry>
    requires asks { page_asks ≤ (W.Store.memory m.old).left }
    requires there { Stored (W.Store.memory m.old).block b }
    requires few { length (L.Level.read ((W.Store.memory m.old).block b)) ≤ L.Level.most }
    ensures after { result ≡ L.Level.read ((W.Store.memory m.old).block b) }
    ensures len { length result ≡ slice_index ((W.Store.memory m.old).block b) 0 }
    ensures few { length result ≤ page_limit }
    ensures same { Reading page_asks (W.Store.memory m.old) (W.Store.memory m.new) }
{
    read_page::<L::Entry, W>(m, b)
}

// And written.
pub fn store_page<L: Level, W: Store>(m: &mut W::Memory, b: u32, page: &Page<L::Entry>)
    requires asks { page_asks ≤ (W.Store.memory m.old).left }
    requires there { Stored (W.Store.memory m.old).block b }
    requires few { length page.now ≤ L.Level.most }
    ensures { Writing page_asks L.Level.read b page.now (W.Store.memory m.old) (W.Store.memory m.new) }
{
    write_page::<L::Entry, W>(m, b, page);
}
