// A heap is blocks, and keeps the bounds that are set for whoever asks.
ghost use Rattle.std.specs.Prelude.{◌≡◌, ◌<◌, length, replicate, IfNone, IfSome};
ghost use Rattle.heap.specs.Sizes.{block_words, block_count};
ghost use Rattle.heap.specs.Owned.{ground_of};
ghost use Rattle.heap.specs.State.{block_at, with_block};

use crate::{BLOCKS, Heap, WORDS};
use things::{Blocks, Bounds};

impl Heap {
    // A block of zeros that is held from now on; none when all blocks are held, or the allocator refuses.
    fn acquire(&mut self) -> Option<u32>
        ensures unchanged { IfNone result (self.new ≡ self.old) }
        ensures number { IfSome result (λ b. b < block_count) }
        ensures unheld { IfSome result (λ b. length (block_at self.old b) ≡ 0) }
        ensures block { IfSome result (λ b. self.new ≡ with_block self.old b (replicate block_words 0)) }
    {
        if self.spare == 0 {
            return None;
        }
        let block = Box::new(self.alloc, [0; WORDS]).ok()?;
        Some(self.hold(block))
    }
}

impl Blocks for Heap {
    ghost as_ground = { λ h. ground_of h.words h.left h.top h.failed };

    fn obtain(&mut self) -> Option<u32> {
        self.left -= 1;
        let got = self.acquire();
        self.failed |= got.is_none();
        got
    }

    fn release(&mut self, b: u32) {
        self.left -= 1;
        let alloc = self.alloc;
        drop(self.let_go(alloc, b));
    }

    fn get(&mut self, b: u32, i: u32) -> u64 {
        self.left -= 1;
        self.block(b)[i as usize]
    }

    fn put(&mut self, b: u32, i: u32, x: u64) {
        self.left -= 1;
        self.block(b)[i as usize] = x;
    }
}

impl Bounds for Heap {
    fn allow(&mut self, asks: u64, top: u64) {
        self.left = asks;
        self.top = top;
    }

    fn many(&mut self) -> u64 {
        (BLOCKS - self.spare) as u64
    }

    fn failed(&mut self) -> bool {
        std::mem::take(&mut self.failed)
    }
}
