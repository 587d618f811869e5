// Which child of a node a place is under.
ghost use Rattle.std.specs.Prelude.{◌≡◌, ◌+◌, ◌<◌, ◌≤◌, length, nat_lt};
ghost use Rattle.page.specs.Layout.{counts};
ghost use Rattle.store.specs.Memory.{Stored};
ghost use Rattle.tree.specs.Pages.{page_asks, Reading};
ghost use Rattle.seek.specs.Descent.{more};
ghost use Rattle.seek.specs.Chosen.{Chosen};

use crate::step::Step;
use crate::target::Target;
use page::kind::Kind;
use store::Store;
use tree::reads::{child_block, child_count, number_of_children};

// A child with so many items has the place `rest`.
fn takes(count: u64, rest: u64, target: Target) -> bool
    ensures { result ≡ nat_lt rest (count + more target) }
{
    match target {
        Target::Item => rest < count,
        Target::Gap => rest <= count,
    }
}

// The child of the node at block b that an item or a gap is under: counts are read until it is found.
#[tactic(auto, using(crate::proofs::Counted::counts_next, crate::proofs::Readings::asked_next, page::proofs::Counts::counts_none))]
pub fn choose_child<K: Kind, W: Store>(m: &mut W::Memory, b: u32, at: u64, target: Target) -> Step
    requires asks { page_asks ≤ (W.Store.memory m.old).left }
    requires there { Stored (W.Store.memory m.old).block b }
    requires few { length (K.Kind.layout.children ((W.Store.memory m.old).block b)) ≤ K.Kind.layout.node_cap }
    requires some { 0 < length (K.Kind.layout.children ((W.Store.memory m.old).block b)) }
    requires inside { at < counts (K.Kind.layout.children ((W.Store.memory m.old).block b)) + more target }
    ensures chosen { Chosen (K.Kind.layout.children ((W.Store.memory m.old).block b)) at target result }
    ensures same { Reading page_asks (W.Store.memory m.old) (W.Store.memory m.new) }
{
    let entries = number_of_children::<K, W>(m, b);
    let mut rest = at;
    for child in 0..entries {
        let count = child_count::<K, W>(m, b, child);
        if takes(count, rest, target) {
            let block = child_block::<K, W>(m, b, child);
            return Step {
                child,
                block,
                rest,
                entries,
            };
        }
        rest -= count;
    }
    unreachable()
}
