// A level of the climb: what is below a node is put right, and the node is written.
ghost use Rattle.std.specs.Prelude.{◌≡◌, ℕ, suc, ◌+◌, ◌-◌, ◌<◌, ◌≤◌, T, ◌++◌, IfSome, take, drop, length, slice_index_or, slice_set};
ghost use Rattle.page.specs.Sizes.{page_limit};
ghost use Rattle.tree.specs.Climb.{risen_list};
ghost use Rattle.tree.specs.Paths.{none};
ghost use Rattle.shrink.specs.Asks.{share_asks};
ghost use Rattle.shrink.specs.Shrinking.{Climbing, Ready};
ghost use Rattle.shrink.specs.Turning.{Site, Next, Below, Mended};

use crate::put::put;
use crate::share::share;
use crate::tier::Tier;
use page::child::Child;
use page::kind::Kind;
use page::level::nodes::Nodes;
use page::page::Page;
use store::Store;
use tree::pages::load_page;
use tree::path::Branch;
use tree::risen::Risen;

// The entries at `at` and behind it become one or two.
fn replace_two<K: Kind>(page: &mut Page<K::Node>, at: usize, risen: Risen)
    requires there { at + 1 < length page.old }
    requires few { length page.old ≤ page_limit }
    requires first_valid { T (K.Node.Codec.valid risen.first) }
    requires second_valid { IfSome risen.second (λ k. T (K.Node.Codec.valid k)) }
    ensures { page.new ≡ take at page.old ++ (risen_list risen ++ drop (suc (suc at)) page.old) }
{
    page.replace(at, risen.first);
    match risen.second {
        Some(second) => page.replace(at + 1, second),
        None => page.cut_out(at + 1, 1),
    }
}

// The children at `at` and behind it share their entries, and the page has what stands above them then.
fn mend<L: Tier, W: Store>(m: &mut W::Memory, page: &mut Page<<L::Kind as Kind>::Node>, at: usize)
    requires asks { share_asks ≤ (W.Store.memory m.old).left }
    requires there { at + 1 < length page.old }
    requires few { length page.old ≤ page_limit }
    requires next { (h : ℕ) × Next L.Kind.Kind.layout L.Tier.at h (slice_index_or page.old at none).block (slice_index_or page.old (suc at) none).block (W.Store.memory m.old) }
    ensures { (h : ℕ) → Next L.Kind.Kind.layout L.Tier.at h (slice_index_or page.old at none).block (slice_index_or page.old (suc at) none).block (W.Store.memory m.old) → Mended L.Kind.Kind.layout h at page.old (W.Store.memory m.old) page.new (W.Store.memory m.new) }
{
    let a = page.get(at).block as u32;
    let b = page.get(at + 1).block as u32;
    let risen = share::<L, W>(m, a, b);
    replace_two::<L::Kind>(page, at, risen);
}

// Of a child that is too empty and the neighbour that it shares with, the left one: the neighbour on the left, or the first child.
fn left_of(place: u32) -> usize
    ensures { result ≡ place - 1 }
{
    place.saturating_sub(1) as usize
}

// What stands above the child at `place` now.
fn enter<K: Kind>(page: &mut Page<K::Node>, place: u32, entry: Child)
    requires there { place < length page.old }
    requires valid { T (K.Node.Codec.valid entry) }
    ensures { page.new ≡ slice_set page.old place entry }
{
    page.replace(place as usize, entry);
}

// The node, with what is below it put right: its child at the branch's place changed.
fn put_right<L: Tier, W: Store>(
    m: &mut W::Memory,
    node: Branch,
    risen: Option<Child>,
) -> Page<<L::Kind as Kind>::Node>
    requires { (s : Site L.Kind.Item) × Below L.Kind.Kind.layout L.Tier.at s node (W.Store.memory m.old) risen }
    ensures { (s : Site L.Kind.Item) → Below L.Kind.Kind.layout L.Tier.at s node (W.Store.memory m.old) risen → Ready L.Kind.Kind.layout s.start s.level node.block s.above (W.Store.memory m.new) result }
{
    let mut page = load_page::<Nodes<L::Kind>, W>(m, node.block);
    match risen {
        Some(entry) => enter::<L::Kind>(&mut page, node.place, entry),
        None => mend::<L, W>(m, &mut page, left_of(node.place)),
    }
    page
}

// What stands above the node then, if it is full enough.
pub fn turn<L: Tier, W: Store>(
    m: &mut W::Memory,
    node: Branch,
    risen: Option<Child>,
) -> Option<Child>
    requires { (s : Site L.Kind.Item) × Below L.Kind.Kind.layout L.Tier.at s node (W.Store.memory m.old) risen }
    ensures { (s : Site L.Kind.Item) → Below L.Kind.Kind.layout L.Tier.at s node (W.Store.memory m.old) risen → Climbing L.Kind.Kind.layout s.start (suc s.level) s.above (W.Store.memory m.new) result }
{
    let page = put_right::<L, W>(m, node, risen);
    put::<Nodes<L::Kind>, W>(m, node.block, &page)
}
