// An item comes into a leaf.
ghost use Rattle.std.specs.Prelude.{◌≡◌, ◌<◌, ◌≤◌, length};
ghost use Rattle.std.specs.List.{insert};
ghost use Rattle.page.specs.Layout.{entry_of_leaf};
ghost use Rattle.store.specs.Memory.{Stored};
ghost use Rattle.store.specs.Stocked.{Stocked};
ghost use Rattle.store.specs.Reserve.{uses};
ghost use Rattle.grow.specs.Asks.{turn_asks};
ghost use Rattle.grow.specs.Settle.{Settled};

use crate::settle::settle;
use page::kind::Kind;
use page::level::leaves::Leaves;
use store::Store;
use store::reserve::Reserve;
use tree::pages::load_page;
use tree::risen::Risen;

// To the place `at` in the leaf at block b: what stands above it then.
pub fn insert_leaf<K: Kind, W: Store>(
    m: &mut W::Memory,
    b: u32,
    at: usize,
    x: K::Item,
    reserve: &mut Reserve,
) -> Risen
    requires asks { turn_asks ≤ (W.Store.memory m.old).left }
    requires there { Stored (W.Store.memory m.old).block b }
    requires few { length (K.Kind.layout.items ((W.Store.memory m.old).block b)) ≤ K.Kind.layout.leaf_cap }
    requires place { at ≤ length (K.Kind.layout.items ((W.Store.memory m.old).block b)) }
    requires room { K.Kind.layout.leaf_cap ≤ length (K.Kind.layout.items ((W.Store.memory m.old).block b)) → 0 < length reserve.old }
    requires stocked { Stocked (uses reserve.old) (W.Store.memory m.old).block }
    requires beside { uses reserve.old b ≡ 0 }
    ensures { Settled K.Kind.layout.items (entry_of_leaf K.Kind.layout) K.Kind.layout.leaf_cap turn_asks b (insert (K.Kind.layout.items ((W.Store.memory m.old).block b)) at x) (W.Store.memory m.old) reserve.old result (W.Store.memory m.new) reserve.new }
{
    let mut page = load_page::<Leaves<K>, W>(m, b);
    page.insert(at, x);
    settle::<Leaves<K>, W>(m, b, page, reserve)
}
