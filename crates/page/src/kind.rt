// The kinds of trees: what stands in their leaves and nodes, and what a node keeps of what is under it.
ghost use Rattle.std.specs.Prelude.{◌≡◌, ℕ, ◌*◌, ◌<◌, ◌≤◌, T, List, slice_index, length};
ghost use Rattle.page.specs.declared.child.Child.{Child};
ghost use Rattle.page.specs.Layout.{Layout, Lawful, imaged};
ghost use Rattle.page.specs.Sizes.{block_room};

use crate::child::Child;
use crate::codec::Codec;
use crate::page::Page;

pub mod row;
pub mod table;

pub trait Kind {
    type Item: Copy;

    type Leaf: Codec<Item = Self::Item>;

    type Node: Codec<Item = Child>;

    ghost layout: { Layout Self.Item };

    fn leaf_cap() -> usize
        ensures { result ≡ layout.leaf_cap };

    fn node_cap() -> usize
        ensures { result ≡ layout.node_cap };

    // What is kept of two lists in a row, by what is kept of each.
    fn join(a: u64, b: u64) -> u64
        ensures { result ≡ layout.join a b };

    // What is kept of the items of a leaf.
    fn leaf_summary(page: &Page<Self::Leaf>) -> u64
        requires { 0 < length page.now }
        ensures { result ≡ layout.summary page.now };

    ghost leaves: { (ws : List ℕ) → layout.items ws ≡ imaged Self.Leaf.Codec.width Self.Leaf.Codec.decode ws };

    ghost nodes: { (ws : List ℕ) → layout.children ws ≡ imaged Self.Node.Codec.width Self.Node.Codec.decode ws };

    ghost lawful: { Lawful layout };

    ghost leaf_fits: { layout.leaf_cap * Self.Leaf.Codec.width ≤ block_room };

    ghost node_fits: { layout.node_cap * Self.Node.Codec.width ≤ block_room };

    ghost items_valid: { (x : Self.Item) → T (Self.Leaf.Codec.valid x) };

    ghost entries_valid: { (n b : ℕ) (xs : List Self.Item) → T (Self.Node.Codec.valid (record { count = n; block = b; summary = layout.summary xs })) };

    ghost keeps_valid: { (n b : ℕ) (x : Child) → T (Self.Node.Codec.valid x) → T (Self.Node.Codec.valid (record { count = n; block = b; summary = x.summary })) };

    ghost joins_valid: { (n b : ℕ) (x y : Child) → T (Self.Node.Codec.valid x) → T (Self.Node.Codec.valid y) → T (Self.Node.Codec.valid (record { count = n; block = b; summary = layout.join x.summary y.summary })) };

    // where a child's count and block stand in its entry
    ghost count_at: { (ws : List ℕ) → (Self.Node.Codec.decode ws).count ≡ slice_index ws 0 };

    ghost block_at: { (ws : List ℕ) → (Self.Node.Codec.decode ws).block ≡ slice_index ws 1 };

    ghost wide: { 20 ≤ layout.node_cap };
}
