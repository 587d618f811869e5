// The blocks themselves. Each of these methods is proved by hand, statement by statement: docs/PROOFS-BY-HAND.md. Keep them few and small.
ghost use Rattle.std.specs.Prelude.{◌≡◌, ◌<◌, [], length};
ghost use Rattle.things.specs.Ground.{AtStart};
ghost use Rattle.heap.specs.Owned.{held};
ghost use Rattle.heap.specs.State.{state_ground, block_at, with_block};
ghost use Rattle.heap.specs.Sizes.{block_words, block_count};
ghost use Rattle.std.specs.Borrow.{sem};

use crate::free_list::all_free;
use crate::{BLOCKS, Heap, WORDS};
use std::alloc::Global;

impl Heap {
    ghost use Rattle.heap.specs.Lending.{LendsBlock};

    // A heap that holds nothing.
    pub(crate) fn empty(alloc: Global) -> Heap
        ensures { AtStart (state_ground result) }
    {
        let free = all_free();
        Heap {
            at: [std::ptr::null_mut(); BLOCKS],
            left: 0,
            top: 0,
            failed: false,
            free,
            spare: BLOCKS,
            alloc,
        }
    }

    // This block is held from now on, under the number on top of the free list.
    pub(crate) fn hold(&mut self, block: Box<[u64; WORDS]>) -> u32
        requires room { held self.old.words < block_count }
        ensures number { result < block_count }
        ensures unheld { length (block_at self.old result) ≡ 0 }
        ensures block { self.new ≡ with_block self.old result block.value }
    {
        let p = Box::into_raw(block);
        let k = self.spare - 1;
        let b = self.free[k];
        self.spare = k;
        self.at[b as usize] = p;
        b
    }

    // Block b is not held any more. The box gives its memory back to C's allocator when it is dropped.
    pub(crate) fn let_go(&mut self, alloc: Global, b: u32) -> Box<[u64; WORDS]>
        requires { length (block_at self.old b) ≡ block_words }
        ensures block { result.value ≡ block_at self.old b }
        ensures others { self.new ≡ with_block self.old b [] }
    {
        let p = self.at[b as usize];
        let k = self.spare;
        self.free[k] = b;
        self.spare = k + 1;
        unsafe { Box::from_raw(alloc, p) }
    }

    // Block b, lent. The heap has then the words that were left there.
    pub(crate) fn block(&mut self, b: u32) -> &mut [u64; WORDS]
        requires { length (block_at self.old b) ≡ block_words }
        ensures* writes_back { sem 𝓛 (LendsBlock self.entry b result) }
        ensures words { result.now ≡ block_at self.old b }
    {
        let p = self.at[b as usize];
        unsafe { &mut *p }
    }
}
