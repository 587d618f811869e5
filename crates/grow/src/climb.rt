// What came up from a page goes into the nodes above it, which split where they are full.
ghost use Rattle.std.specs.Prelude.{◌≡◌, ◌*◌, ◌<◌, ◌≤◌, [], length};
ghost use Rattle.page.specs.Layout.{entry_of};
ghost use Rattle.page.specs.Sizes.{page_limit};
ghost use Rattle.grow.specs.Asks.{turn_asks};
ghost use Rattle.grow.specs.Settle.{Settled};
ghost use Rattle.grow.specs.Rises.{placed, Valid, Spent, Ready, CanRise, Climbs};

use crate::settle::settle;
use page::kind::Kind;
use page::level::nodes::Nodes;
use page::page::Page;
use store::Store;
use store::reserve::Reserve;
use tree::pages::load_page;
use tree::path::{Branch, Path};
use tree::risen::Risen;

// The entry at a place of a node gives way to one or two.
#[tactic(auto, using(crate::proofs::Climbing::placed_one, crate::proofs::Climbing::placed_two))]
fn put<K: Kind>(page: &mut Page<K::Node>, place: usize, risen: Risen)
    requires there { place < length page.old }
    requires room { length page.old < page_limit }
    requires valid { Valid K.Node.Codec.valid risen }
    ensures { page.new ≡ placed page.old place risen }
{
    match risen.second {
        None => page.replace(place, risen.first),
        Some(other) => page.replace_by_two(place, risen.first, other),
    }
}

// What came up goes into the node of a branch, for the child taken there: what stands above the node then.
fn rise<K: Kind, W: Store>(
    m: &mut W::Memory,
    branch: Branch,
    risen: Risen,
    reserve: &mut Reserve,
) -> Risen
    requires asks { turn_asks ≤ (W.Store.memory m.old).left }
    requires ready { Ready K.Kind.layout K.Node.Codec.valid branch (W.Store.memory m.old) reserve.old risen }
    ensures { Settled K.Kind.layout.children (entry_of K.Kind.layout) K.Kind.layout.node_cap turn_asks branch.block (placed (K.Kind.layout.children ((W.Store.memory m.old).block branch.block)) branch.place risen) (W.Store.memory m.old) reserve.old result (W.Store.memory m.new) reserve.new }
{
    let mut page = load_page::<Nodes<K>, W>(m, branch.block);
    put::<K>(&mut page, branch.place as usize, risen);
    settle::<Nodes<K>, W>(m, branch.block, page, reserve)
}

// Up all nodes of a path, from the lowest to the root.
pub fn climb<K: Kind, W: Store>(
    m: &mut W::Memory,
    mut path: Path,
    risen: Risen,
    reserve: &mut Reserve,
) -> Risen
    requires asks { length path * turn_asks ≤ (W.Store.memory m.old).left }
    requires rises { CanRise K.Kind.layout path (W.Store.memory m.old) reserve.old risen }
    ensures climbs { Climbs K.Kind.layout path (W.Store.memory m.old) reserve.old risen [] (W.Store.memory m.new) reserve.new result }
    ensures spent { Spent (length path * turn_asks) (W.Store.memory m.old) (W.Store.memory m.new) }
    ensures fewer { length reserve.new ≤ length reserve.old }
{
    let mut top = risen;
    while let Some(branch) = path.pop() {
        top = rise::<K, W>(m, branch, top, reserve);
    }
    top
}
