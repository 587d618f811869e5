// A whole tree is given back, block by block.
#![tactic(auto)]

ghost use Rattle.std.specs.Prelude.{◌*◌, ◌≤◌};
ghost use Rattle.tree.specs.Trees.{Lies};
ghost use Rattle.clear.specs.Given.{give_asks, tall_blocks, GivenBack};

use crate::turns::{go_down, next_child};
use page::kind::Kind;
use store::Store;
use tree::path::{Branch, Path};
use tree::top::Tree;

mod turns;

// Each block of the tree goes back to the memory, in a few askings for each.
pub fn give_back<K: Kind, W: Store>(m: &mut W::Memory, t: Tree)
    requires lies { Lies K.Kind.layout (W.Store.memory m.old) t }
    requires asks { give_asks * tall_blocks K.Kind.layout t.height (W.Store.memory m.old).block t.root ≤ (W.Store.memory m.old).left }
    ensures { GivenBack K.Kind.layout t (W.Store.memory m.old) (W.Store.memory m.new) }
{
    if t.height == 0 {
        return;
    }
    let mut path = Path::new();
    go_down::<W>(m, &mut path, t.root, t.height);
    while let Some(at) = path.pop() {
        match next_child::<K, W>(m, at) {
            Some(child) => {
                path.push(Branch {
                    place: at.place + 1,
                    ..at
                });
                go_down::<W>(m, &mut path, child, t.height);
            }
            None => W::release(m, at.block),
        }
    }
}
