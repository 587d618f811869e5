// A page is written, and what stands above it is made where the page is full enough.
ghost use Rattle.std.specs.Prelude.{◌≡◌, ◌^◌, ◌<◌, ◌≤◌, true, false, length};
ghost use Rattle.page.specs.Layout.{half};
ghost use Rattle.page.specs.Sizes.{page_limit};
ghost use Rattle.store.specs.Memory.{Stored};
ghost use Rattle.tree.specs.Pages.{page_asks};
ghost use Rattle.shrink.specs.Putting.{Put};

use page::child::Child;
use page::level::{Level, page_entry};
use page::page::Page;
use store::Store;
use tree::pages::store_page;

// Whether a page with so many entries, of at most so many, is too empty to stand below others.
fn is_low(len: usize, most: usize) -> bool
    requires { len ≤ page_limit }
    ensures low { result ≡ true → len < half most }
    ensures full { result ≡ false → half most ≤ len }
{
    2 * len < most
}

// Nothing stands above a page that is too empty.
pub fn put<L: Level, W: Store>(m: &mut W::Memory, b: u32, page: &Page<L::Entry>) -> Option<Child>
    requires asks { page_asks ≤ (W.Store.memory m.old).left }
    requires there { Stored (W.Store.memory m.old).block b }
    requires few { length page.now ≤ L.Level.most }
    requires counted { L.Level.items_under page.now < 2 ^ 64 }
    ensures { Put L.Level.read L.Level.entry L.Level.most b page.now (W.Store.memory m.old) result (W.Store.memory m.new) }
{
    store_page::<L, W>(m, b, page);
    if is_low(page.len(), L::most()) {
        return None;
    }
    Some(page_entry::<L>(b as u64, page))
}
