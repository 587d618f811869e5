// How the entries of a page lie in words: each has the same number of them.
ghost use Rattle.std.specs.Prelude.{◌≡◌, ℕ, ◌+◌, ◌<◌, ◌≤◌, Bool, T, List, length, take, drop};
ghost use Rattle.std.proofs.Math.Seq.{paste};
ghost use Rattle.page.specs.Sizes.{word_limit, width_limit};

use crate::sizes::WORDS;

pub mod children;
pub mod items;

pub trait Codec {
    type Item: Copy;

    ghost width: { ℕ };

    ghost decode: { List ℕ → Self.Item };

    ghost encode: { Self.Item → List ℕ };

    // what can be written
    ghost valid: { Self.Item → Bool };

    fn width() -> usize
        ensures { result ≡ width };

    fn read(words: &[u64; WORDS], at: usize) -> Self::Item
        requires { at + width ≤ word_limit }
        ensures { result ≡ decode (take width (drop at words.now)) };

    fn write(x: Self::Item, words: &mut [u64; WORDS], at: usize)
        requires { at + width ≤ word_limit }
        ensures { words.new ≡ paste words.old at (encode x) width };

    ghost some: { 0 < width };

    ghost small: { width ≤ width_limit };

    ghost sized: { (x : Self.Item) → length (encode x) ≡ width };

    ghost back: { (x : Self.Item) → T (valid x) → decode (encode x) ≡ x };

    ghost made: { (ws : List ℕ) → T (valid (decode ws)) };
}
