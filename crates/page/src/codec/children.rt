// The children of nodes: those of a row keep no summary, which is 0.
ghost use Rattle.std.specs.Prelude.{ℕ, true, [], ◌∷◌, ◌==◌};
ghost use Rattle.page.specs.Entries.{row_child_of, table_child_of};
ghost use Rattle.std.proofs.Common.{rules};

use super::Codec;
use crate::child::Child;
use crate::sizes::WORDS;

// The children of a row's node.
pub struct RowChildren;

impl Codec for RowChildren {
    type Item = Child;

    ghost width = { 2 };

    ghost decode = { row_child_of };

    ghost encode = { λ c. c.count ∷ (c.block ∷ []) };

    ghost valid = { λ c. (c.summary == 0) };

    ghost some = { Prim.search rules };

    ghost small = { Prim.search rules };

    ghost sized = { Prim.search rules };

    ghost back = { Prim.search rules };

    ghost made = { Prim.search rules };

    fn width() -> usize {
        2
    }

    fn read(words: &[u64; WORDS], at: usize) -> Child {
        Child {
            count: words[at],
            block: words[at + 1],
            summary: 0,
        }
    }

    fn write(x: Child, words: &mut [u64; WORDS], at: usize) {
        words[at] = x.count;
        words[at + 1] = x.block;
    }
}

// The children of a table's node.
pub struct TableChildren;

impl Codec for TableChildren {
    type Item = Child;

    ghost width = { 3 };

    ghost decode = { table_child_of };

    ghost encode = { λ c. c.count ∷ (c.block ∷ (c.summary ∷ [])) };

    ghost valid = { λ _. true };

    ghost some = { Prim.search rules };

    ghost small = { Prim.search rules };

    ghost sized = { Prim.search rules };

    ghost back = { Prim.search rules };

    ghost made = { Prim.search rules };

    fn width() -> usize {
        3
    }

    fn read(words: &[u64; WORDS], at: usize) -> Child {
        Child {
            count: words[at],
            block: words[at + 1],
            summary: words[at + 2],
        }
    }

    fn write(x: Child, words: &mut [u64; WORDS], at: usize) {
        words[at] = x.count;
        words[at + 1] = x.block;
        words[at + 2] = x.summary;
    }
}
