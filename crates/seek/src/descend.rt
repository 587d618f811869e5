// The path down to a place in a tree.
ghost use Rattle.std.specs.Prelude.{◌≡◌, ◌+◌, ◌<◌, ◌≤◌, length};
ghost use Rattle.tree.specs.Trees.{holds, Lies};
ghost use Rattle.seek.specs.Asks.{descend_asks};
ghost use Rattle.seek.specs.Descent.{more, run_after, Descended};
ghost use Rattle.tree.specs.Sizes.{longest};

use crate::choose::choose_child;
use crate::reached::Reached;
use crate::target::Target;
use page::kind::Kind;
use store::Store;
use tree::path::{Branch, Path};
use tree::reads::number_of_entries;
use tree::top::Tree;

// A page with n entries comes behind a run of full pages.
fn run_on(run: u32, n: usize, most: usize) -> u32
    requires { run < longest }
    ensures { result ≡ run_after run n most }
{
    if n == most { run + 1 } else { 0 }
}

// To the item at `at`, or to the gap where an item comes that is to have `at` items before it.
pub fn descend<K: Kind, W: Store>(m: &mut W::Memory, t: Tree, at: u64, target: Target) -> Reached
    requires lies { Lies K.Kind.layout (W.Store.memory m.old) t }
    requires tall { 0 < t.height }
    requires there { at < length (holds K.Kind.layout (W.Store.memory m.old).block t) + more target }
    requires asks { descend_asks ≤ (W.Store.memory m.old).left }
    ensures { Descended K.Kind.layout (W.Store.memory m.old) t at target result (W.Store.memory m.new) }
{
    let mut path = Path::new();
    let mut b = t.root;
    let mut rest = at;
    let mut full = 0;
    for _ in 1..t.height {
        let step = choose_child::<K, W>(m, b, rest, target);
        path.push(Branch {
            block: b,
            place: step.child,
        });
        full = run_on(full, step.entries as usize, K::node_cap());
        b = step.block as u32;
        rest = step.rest;
    }
    let items = number_of_entries::<W>(m, b);
    Reached {
        path,
        leaf: b,
        at: rest,
        full: run_on(full, items as usize, K::leaf_cap()),
    }
}
