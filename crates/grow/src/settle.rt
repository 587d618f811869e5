// A page, with one entry more perhaps than fit, goes to its block, or in two halves to it and to a block of the reserve.
ghost use Rattle.std.specs.Prelude.{◌≡◌, ◌+◌, ◌/◌, ◌^◌, ◌<◌, ◌≤◌, ℕ, length, take, drop};
ghost use Rattle.store.specs.Memory.{Stored};
ghost use Rattle.store.specs.Stocked.{Stocked};
ghost use Rattle.store.specs.Reserve.{uses};
ghost use Rattle.grow.specs.Asks.{settle_asks};
ghost use Rattle.grow.specs.Settle.{lower, upper, Parted, Settled};

use crate::taken::take_block;
use page::level::{Level, page_entry};
use page::page::Page;
use store::Store;
use store::reserve::Reserve;
use tree::pages::store_page;
use tree::risen::Risen;

// The upper half of a page that was split, and its block.
#[derive(Drop)]
struct Upper<L: Level> {
    block: u32,
    page: Page<L::Entry>,
}

// Half of the page stays and goes to block b, and the rest to a block of the reserve.
fn split<L: Level, W: Store>(
    m: &mut W::Memory,
    b: u32,
    page: &mut Page<L::Entry>,
    reserve: &mut Reserve,
) -> Upper<L>
    requires asks { settle_asks ≤ (W.Store.memory m.old).left }
    requires there { Stored (W.Store.memory m.old).block b }
    requires few { length page.old ≤ L.Level.most + 1 }
    requires some { 0 < length reserve.old }
    requires stocked { Stocked (uses reserve.old) (W.Store.memory m.old).block }
    requires beside { uses reserve.old b ≡ 0 }
    ensures stay { page.new ≡ lower page.old }
    ensures leave { result.page ≡ upper page.old }
    ensures parted { Parted L.Level.read settle_asks b page.old (W.Store.memory m.old) reserve.old result.block (W.Store.memory m.new) reserve.new }
{
    let upper = page.split_off(page.len() / 2);
    let block = take_block(reserve);
    store_page::<L, W>(m, b, page);
    store_page::<L, W>(m, block, &upper);
    Upper { block, page: upper }
}

// What stands above the page then.
pub fn settle<L: Level, W: Store>(
    m: &mut W::Memory,
    b: u32,
    mut page: Page<L::Entry>,
    reserve: &mut Reserve,
) -> Risen
    requires asks { settle_asks ≤ (W.Store.memory m.old).left }
    requires there { Stored (W.Store.memory m.old).block b }
    requires some { 0 < length page }
    requires few { length page ≤ L.Level.most + 1 }
    requires counts { L.Level.items_under page < 2 ^ 64 }
    requires room { L.Level.most < length page → 0 < length reserve.old }
    requires stocked { Stocked (uses reserve.old) (W.Store.memory m.old).block }
    requires beside { uses reserve.old b ≡ 0 }
    ensures { Settled L.Level.read L.Level.entry L.Level.most settle_asks b page (W.Store.memory m.old) reserve.old result (W.Store.memory m.new) reserve.new }
{
    if page.len() <= L::most() {
        store_page::<L, W>(m, b, &page);
        return Risen {
            first: page_entry::<L>(b as u64, &page),
            second: None,
        };
    }
    let upper = split::<L, W>(m, b, &mut page, reserve);
    Risen {
        first: page_entry::<L>(b as u64, &page),
        second: Some(page_entry::<L>(upper.block as u64, &upper.page)),
    }
}
