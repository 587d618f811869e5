// The root of a tree, after a climb.
ghost use Rattle.std.specs.Prelude.{◌<◌, ◌≤◌, T, [], ◌∷◌, length};
ghost use Rattle.store.specs.Stocked.{Stocked};
ghost use Rattle.store.specs.Reserve.{uses};
ghost use Rattle.tree.specs.Pages.{page_asks};
ghost use Rattle.grow.specs.Rises.{Spent, CanRise};
ghost use Rattle.grow.specs.Crown.{Crowns};
ghost use Rattle.grow.specs.Settle.{Filled};

use crate::taken::take_block;
use page::child::Child;
use page::kind::Kind;
use page::level::nodes::Nodes;
use page::page::Page;
use store::Store;
use store::reserve::Reserve;
use tree::pages::store_page;
use tree::risen::Risen;
use tree::top::Tree;

// A node above two others, in a block of the reserve.
fn node_above<K: Kind, W: Store>(
    m: &mut W::Memory,
    one: Child,
    other: Child,
    reserve: &mut Reserve,
) -> u32
    requires asks { page_asks ≤ (W.Store.memory m.old).left }
    requires one_valid { T (K.Node.Codec.valid one) }
    requires other_valid { T (K.Node.Codec.valid other) }
    requires some { 0 < length reserve.old }
    requires stocked { Stocked (uses reserve.old) (W.Store.memory m.old).block }
    ensures { Filled K.Kind.layout.children page_asks (one ∷ (other ∷ [])) (W.Store.memory m.old) reserve.old result (W.Store.memory m.new) reserve.new }
{
    let mut page = Page::new();
    page.push(one);
    page.push(other);
    let block = take_block(reserve);
    store_page::<Nodes<K>, W>(m, block, &page);
    block
}

// What came up is the tree, or stands under a new root.
pub fn new_root<K: Kind, W: Store>(
    m: &mut W::Memory,
    height: u8,
    risen: Risen,
    reserve: &mut Reserve,
) -> Tree
    requires asks { page_asks ≤ (W.Store.memory m.old).left }
    requires low { height < 255 }
    requires rises { CanRise K.Kind.layout [] (W.Store.memory m.old) reserve.old risen }
    ensures crowns { Crowns K.Kind.layout height (W.Store.memory m.old) reserve.old risen (W.Store.memory m.new) reserve.new result }
    ensures spent { Spent page_asks (W.Store.memory m.old) (W.Store.memory m.new) }
    ensures fewer { length reserve.new ≤ length reserve.old }
{
    match risen.second {
        None => Tree {
            root: risen.first.block as u32,
            height,
        },
        Some(other) => Tree {
            root: node_above::<K, W>(m, risen.first, other, reserve),
            height: height + 1,
        },
    }
}
