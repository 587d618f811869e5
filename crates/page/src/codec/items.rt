// The items of rows and tables.
ghost use Rattle.std.specs.Prelude.{ℕ, true, [], ◌∷◌};
ghost use Rattle.page.specs.Entries.{word_of, pair_of};
ghost use Rattle.std.proofs.Common.{rules};

use super::Codec;
use crate::entry::Pair;
use crate::sizes::WORDS;

// The words of a row.
pub struct Words;

impl Codec for Words {
    type Item = u64;

    ghost width = { 1 };

    ghost decode = { word_of };

    ghost encode = { λ x. x ∷ [] };

    ghost valid = { λ _. true };

    ghost some = { Prim.search rules };

    ghost small = { Prim.search rules };

    ghost sized = { Prim.search rules };

    ghost back = { Prim.search rules };

    ghost made = { Prim.search rules };

    fn width() -> usize {
        1
    }

    fn read(words: &[u64; WORDS], at: usize) -> u64 {
        words[at]
    }

    fn write(x: u64, words: &mut [u64; WORDS], at: usize) {
        words[at] = x;
    }
}

// The pairs of a table.
pub struct Pairs;

impl Codec for Pairs {
    type Item = Pair;

    ghost width = { 2 };

    ghost decode = { pair_of };

    ghost encode = { λ p. p.key ∷ (p.word ∷ []) };

    ghost valid = { λ _. true };

    ghost some = { Prim.search rules };

    ghost small = { Prim.search rules };

    ghost sized = { Prim.search rules };

    ghost back = { Prim.search rules };

    ghost made = { Prim.search rules };

    fn width() -> usize {
        2
    }

    fn read(words: &[u64; WORDS], at: usize) -> Pair {
        Pair {
            key: words[at],
            word: words[at + 1],
        }
    }

    fn write(x: Pair, words: &mut [u64; WORDS], at: usize) {
        words[at] = x.key;
        words[at + 1] = x.word;
    }
}
