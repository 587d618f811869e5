// Blocks in a lent slice, and the numbers of those that are free.
ghost use Rattle.std.specs.Prelude.{◌≡◌, ◌≤◌, length, nat_eq};
ghost use Rattle.std.specs.List.{All, IsDistinct};
ghost use Rattle.std.proofs.Props.{props};
ghost use Rattle.lent.specs.Sizes.{block_words, most_blocks};
ghost use Rattle.lent.specs.Free.{AreBelow, on_stack};

mod ground;

use crate::stack::Stack;
use meter::Meter;

pub const BLOCK_WORDS: usize = 64;

pub const MOST_BLOCKS: usize = 1_048_576;

#[derive(Drop)]
pub struct Lent<'a> {
    blocks: &'a mut [[u64; BLOCK_WORDS]],
    free: Stack<'a>,
    meter: Meter,
    ghost few: { length blocks.now ≤ most_blocks },
    ghost whole: { All (λ ws. length ws ≡ block_words) blocks.now },
    ghost room: { length free.numbers.now ≡ length blocks.now },
    ghost low: { AreBelow (length blocks.now) (on_stack free) },
    ghost apart: { IsDistinct nat_eq (on_stack free) } by { Prim.hlevel props },
}
