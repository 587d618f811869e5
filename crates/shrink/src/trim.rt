// The top of a tree after a climb: a node with one child goes, and so does an empty leaf.
ghost use Rattle.std.specs.Prelude.{◌≡◌, ◌-◌, ◌^◌, ◌<◌, ◌≤◌, None, length, slice_index_or};
ghost use Rattle.tree.specs.Paths.{none};
ghost use Rattle.shrink.specs.Deleting.{Topmost};
ghost use Rattle.shrink.specs.Shrinking.{Start, Trimmed};

use page::child::Child;
use page::kind::Kind;
use page::level::nodes::Nodes;
use page::page::Page;
use store::Store;
use tree::pages::load_page;
use tree::reads::number_of_entries;
use tree::top::Tree;

// A leaf alone.
fn trim_leaf<K: Kind, W: Store>(m: &mut W::Memory, t: Tree) -> Tree
    requires height { t.height ≡ 1 }
    requires top { (z : Start K.Item) × Topmost K.Kind.layout z t (W.Store.memory m.old) None }
    ensures { (z : Start K.Item) → Topmost K.Kind.layout z t (W.Store.memory m.old) None → Trimmed K.Kind.layout z result.height result.root (W.Store.memory m.new) }
{
    if number_of_entries::<W>(m, t.root) > 0 {
        return t;
    }
    W::release(m, t.root);
    Tree { root: 0, height: 0 }
}

// The tree below a root with one child.
fn only_child<K: Kind>(t: Tree, page: &Page<K::Node>) -> Tree
    requires tall { 0 < t.height }
    requires some { 0 < length page.now }
    requires small { (slice_index_or page.now 0 none).block < 2 ^ 32 }
    ensures root { result.root ≡ (slice_index_or page.now 0 none).block }
    ensures height { result.height ≡ t.height - 1 }
{
    Tree {
        root: page.get(0).block as u32,
        height: t.height - 1,
    }
}

// A node.
fn trim_node<K: Kind, W: Store>(m: &mut W::Memory, t: Tree) -> Tree
    requires height { 2 ≤ t.height }
    requires top { (z : Start K.Item) × Topmost K.Kind.layout z t (W.Store.memory m.old) None }
    ensures { (z : Start K.Item) → Topmost K.Kind.layout z t (W.Store.memory m.old) None → Trimmed K.Kind.layout z result.height result.root (W.Store.memory m.new) }
{
    let page = load_page::<Nodes<K>, W>(m, t.root);
    if page.len() > 1 {
        return t;
    }
    W::release(m, t.root);
    only_child::<K>(t, &page)
}

// A root that is full enough for a page below others stays.
pub fn trim<K: Kind, W: Store>(m: &mut W::Memory, t: Tree, risen: Option<Child>) -> Tree
    requires { (z : Start K.Item) × Topmost K.Kind.layout z t (W.Store.memory m.old) risen }
    ensures { (z : Start K.Item) → Topmost K.Kind.layout z t (W.Store.memory m.old) risen → Trimmed K.Kind.layout z result.height result.root (W.Store.memory m.new) }
{
    match risen {
        Some(_) => t,
        None if t.height == 1 => trim_leaf::<K, W>(m, t),
        None => trim_node::<K, W>(m, t),
    }
}
