// An item comes into a tree.
ghost use Rattle.std.specs.Prelude.{◌≡◌, ◌+◌, ◌<◌, ◌≤◌, length, MatchResult};
ghost use Rattle.store.specs.Reserve.{Undone};
ghost use Rattle.tree.specs.Trees.{holds, Lies};
ghost use Rattle.grow.specs.Asks.{plant_asks, most_blocks, insert_asks, insert_undone};
ghost use Rattle.grow.specs.Inserted.{blocks_needed, Planted, Inserted};

use crate::climb::climb;
use crate::leaf::insert_leaf;
use crate::root::new_root;
use page::kind::Kind;
use page::level::leaves::Leaves;
use page::page::Page;
use seek::descend::descend;
use seek::target::Target;
use store::Store;
use store::fresh::Fresh;
use store::gather::{NoRoom, give_all, reserve};
use tree::pages::store_page;
use tree::top::Tree;

// A leaf with one item: the tree.
fn plant<K: Kind, W: Store>(m: &mut W::Memory, x: K::Item) -> Result<Tree, NoRoom>
    requires asks { plant_asks ≤ (W.Store.memory m.old).left }
    requires room { (W.Store.memory m.old).many < (W.Store.memory m.old).top }
    ensures { MatchResult result (λ t. Planted K.Kind.layout x (W.Store.memory m.old) t (W.Store.memory m.new)) (λ _. Undone insert_undone (W.Store.memory m.old) (W.Store.memory m.new)) }
{
    let fresh = Fresh::obtain::<W>(m)?;
    let mut page = Page::new();
    page.push(x);
    let root = fresh.into_block();
    store_page::<Leaves<K>, W>(m, root, &page);
    Ok(Tree { root, height: 1 })
}

// How many blocks are got in advance: one for each page in a row that is full, and one for a new root if all are.
fn blocks_for(full: u32, depth: usize) -> usize
    ensures { result ≡ blocks_needed full depth }
{
    let full = full as usize;
    if full > depth { full + 1 } else { full }
}

// Into a tree that has a root.
fn insert_below<K: Kind, W: Store>(
    m: &mut W::Memory,
    t: Tree,
    at: u64,
    x: K::Item,
) -> Result<Tree, NoRoom>
    requires lies { Lies K.Kind.layout (W.Store.memory m.old) t }
    requires tall { 0 < t.height }
    requires place { at ≤ length (holds K.Kind.layout (W.Store.memory m.old).block t) }
    requires asks { insert_asks ≤ (W.Store.memory m.old).left }
    requires room { (W.Store.memory m.old).many + most_blocks ≤ (W.Store.memory m.old).top }
    ensures { MatchResult result (λ t'. Inserted K.Kind.layout at x t (W.Store.memory m.old) t' (W.Store.memory m.new)) (λ _. Undone insert_undone (W.Store.memory m.old) (W.Store.memory m.new)) }
{
    let reached = descend::<K, W>(m, t, at, Target::Gap);
    let blocks = blocks_for(reached.full, reached.path.len());
    let mut stock = reserve::<W>(m, blocks)?;
    let split = insert_leaf::<K, W>(m, reached.leaf, reached.at as usize, x, &mut stock);
    let top = climb::<K, W>(m, reached.path, split, &mut stock);
    let tree = new_root::<K, W>(m, t.height, top, &mut stock);
    give_all::<W>(stock, m);
    Ok(tree)
}

// With `at` items before it. Where the memory refuses a block, all is as it was.
pub fn insert<K: Kind, W: Store>(
    m: &mut W::Memory,
    t: Tree,
    at: u64,
    x: K::Item,
) -> Result<Tree, NoRoom>
    requires lies { Lies K.Kind.layout (W.Store.memory m.old) t }
    requires place { at ≤ length (holds K.Kind.layout (W.Store.memory m.old).block t) }
    requires asks { insert_asks ≤ (W.Store.memory m.old).left }
    requires room { (W.Store.memory m.old).many + most_blocks ≤ (W.Store.memory m.old).top }
    ensures { MatchResult result (λ t'. Inserted K.Kind.layout at x t (W.Store.memory m.old) t' (W.Store.memory m.new)) (λ _. Undone insert_undone (W.Store.memory m.old) (W.Store.memory m.new)) }
{
    if t.height == 0 {
        plant::<K, W>(m, x)
    } else {
        insert_below::<K, W>(m, t, at, x)
    }
}
