// Which child of a node an item or a gap between items is under, of a page in local memory. The trees read a node's counts where they lie: seek's choose_child.
ghost use Rattle.std.specs.Prelude.{◌≡◌, ℕ, ◌+◌, ◌<◌, ◌≤◌, take, slice_index_or, length};
ghost use Rattle.page.specs.declared.child.Child.{Child};
ghost use Rattle.page.specs.Layout.{counts};
ghost use Rattle.page.specs.Sizes.{page_limit};

use crate::kind::Kind;
use crate::page::Page;

// A child, and a place among the items under it.
#[derive(Clone, Copy)]
pub struct Place {
    pub child: usize,
    pub rest: u64,
}

// Where the item at `at` is.
pub fn find<K: Kind>(page: &Page<K::Node>, at: u64) -> Place
    requires { at < counts page.now }
    ensures child { result.child < length page.now }
    ensures before { counts (take result.child page.now) + result.rest ≡ at }
    ensures within { (d : Child) → result.rest < (slice_index_or page.now result.child d).count }
    ensures few { length page.now ≤ page_limit }
{
    let mut rest = at;
    for child in 0..page.len() {
        let count = page.get(child).count;
        if rest < count {
            return Place { child, rest };
        }
        rest -= count;
    }
    unreachable()
}

// Where an item comes that is to have `at` items before it: the first child that can take it.
pub fn find_gap<K: Kind>(page: &Page<K::Node>, at: u64) -> Place
    requires some { 0 < length page.now }
    requires there { at ≤ counts page.now }
    ensures child { result.child < length page.now }
    ensures before { counts (take result.child page.now) + result.rest ≡ at }
    ensures within { (d : Child) → result.rest ≤ (slice_index_or page.now result.child d).count }
    ensures first { 0 < result.child → 0 < result.rest }
    ensures few { length page.now ≤ page_limit }
{
    let _few = page.len();
    if at == 0 {
        return Place { child: 0, rest: 0 };
    }
    let place = find::<K>(page, at - 1);
    Place {
        child: place.child,
        rest: place.rest + 1,
    }
}
