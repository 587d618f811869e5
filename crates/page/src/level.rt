// The levels of a tree: leaves, whose pages hold items, and nodes, whose pages hold children.
ghost use Rattle.std.specs.Prelude.{◌≡◌, ℕ, ◌+◌, ◌*◌, ◌^◌, ◌<◌, ◌≤◌, T, List, ◌++◌, length};
ghost use Rattle.page.specs.declared.child.Child.{Child};
ghost use Rattle.page.specs.Layout.{imaged};
ghost use Rattle.page.specs.Sizes.{block_room, page_limit};

use crate::child::Child;
use crate::codec::Codec;
use crate::kind::Kind;
use crate::page::Page;

pub mod leaves;
pub mod nodes;
#[cfg(test)]
mod tests;

pub trait Level {
    type Kind: Kind;

    type Entry: Codec;

    // what a block holds as such a page, of at most so many entries
    ghost read: { List ℕ → List Self.Entry.Item };

    ghost most: { ℕ };

    // how many items are under such a page
    ghost items_under: { List Self.Entry.Item → ℕ };

    // what the node above keeps of such a page at a block
    ghost entry: { ℕ → List Self.Entry.Item → Child };

    fn most() -> usize
        ensures { result ≡ most };

    fn entry(block: u64, page: &Page<Self::Entry>) -> Child
        requires some { 0 < length page.now }
        requires few { items_under page.now < 2 ^ 64 }
        ensures value { result ≡ entry block page.now }
        ensures valid { T (Self.Kind.Node.Codec.valid result) };

    ghost reads: { (ws : List ℕ) → read ws ≡ imaged Self.Entry.Codec.width Self.Entry.Codec.decode ws };

    ghost fits: { most * Self.Entry.Codec.width ≤ block_room };

    ghost wide: { 2 ≤ most };

    ghost adds: { (xs ys : List Self.Entry.Item) → items_under (xs ++ ys) ≡ items_under xs + items_under ys };

    ghost placed: { (b : ℕ) (xs : List Self.Entry.Item) → (entry b xs).block ≡ b };
}

// What the node above keeps of a page at `block`, by the page's level; and that the page has at most 64 entries, which no level has to prove.
pub fn page_entry<L: Level>(block: u64, page: &Page<L::Entry>) -> Child
    requires some { 0 < length page.now }
    requires few { L.Level.items_under page.now < 2 ^ 64 }
    ensures value { result ≡ L.Level.entry block page.now }
    ensures valid { T (L.Kind.Node.Codec.valid result) }
    ensures short { length page.now ≤ page_limit }
{
    let _few = page.len();
    L::entry(block, page)
}
