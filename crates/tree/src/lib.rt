// Trees in blocks of memory: what they are, and how their pages are read and written.
#![tactic(auto)]

ghost use Rattle.std.specs.Prelude.{ℕ};
ghost use Rattle.page.specs.declared.entry.Pair.{Pair};
ghost use Rattle.tree.specs.Laws.{Frame, Bound, Height, Number};

pub mod pages;
pub mod path;
pub mod reads;
pub mod risen;
pub mod top;

// Of trees of words, with 62 words to a leaf and 31 children to a node, and of pairs, with 31 and 20.
// What a tree is depends on the blocks that it uses. It has at most one block, and one more for
// each 24 words or 12 pairs. With 1,048,640 blocks or fewer its root has level 5 or 6 at most, leaves
// having level 0. Over all blocks, its uses are as many as its blocks.
pub fn laws()
    ensures frame_words { Frame ℕ }
    ensures frame_pairs { Frame Pair }
    ensures bound_words { Bound ℕ 62 31 24 }
    ensures bound_pairs { Bound Pair 31 20 12 }
    ensures height_words { Height ℕ 31 5 }
    ensures height_pairs { Height Pair 20 6 }
    ensures number_words { Number ℕ }
    ensures number_pairs { Number Pair }
{}
