// An item leaves a tree. That needs no block and can't fail, and each block that goes is given back at once.
ghost use Rattle.std.specs.Prelude.{◌<◌, ◌≤◌, length};
ghost use Rattle.tree.specs.Trees.{holds, Lies};
ghost use Rattle.shrink.specs.Asks.{delete_asks};
ghost use Rattle.shrink.specs.Deleting.{Deleted};

use crate::climb::climb;
use crate::put::put;
use crate::trim::trim;
use page::kind::Kind;
use page::level::leaves::Leaves;
use seek::descend::descend;
use seek::target::Target;
use store::Store;
use tree::pages::load_page;
use tree::top::Tree;

// The tree without the item at `at`, and that item.
pub fn delete<K: Kind, W: Store>(m: &mut W::Memory, t: Tree, at: u64) -> (Tree, K::Item)
    requires lies { Lies K.Kind.layout (W.Store.memory m.old) t }
    requires place { at < length (holds K.Kind.layout (W.Store.memory m.old).block t) }
    requires asks { delete_asks ≤ (W.Store.memory m.old).left }
    ensures { Deleted K.Kind.layout at t (W.Store.memory m.old) result.0 result.1 (W.Store.memory m.new) }
{
    let reached = descend::<K, W>(m, t, at, Target::Item);
    let mut page = load_page::<Leaves<K>, W>(m, reached.leaf);
    let item = page.remove(reached.at as usize);
    let risen = put::<Leaves<K>, W>(m, reached.leaf, &page);
    let top = climb::<K, W>(m, reached.path, risen);
    (trim::<K, W>(m, t, top), item)
}
