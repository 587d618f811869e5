// A heap of 1,024 blocks of 64 words: memory of C's allocator, asked for block by block and owned by one value.
#![tactic(auto)]

ghost use Rattle.std.specs.Prelude.{◌≡◌, ℕ, List};
ghost use Rattle.things.specs.Ground.{AtStart};
ghost use Rattle.heap.specs.Owned.{owned, held};
ghost use Rattle.heap.specs.Kept.{Kept};
ghost use Rattle.heap.specs.State.{State, state_ground};

mod blocks;
mod free_list;
mod ground;

use std::alloc::Global;
use std::marker::Model;
use std::rt::Memory;

// The words of a block. specs/Sizes.antt has both sizes for the proofs.
const WORDS: usize = 64;

// How many blocks there are.
const BLOCKS: usize = 1024;

pub struct Heap {
    // where block b lies, if b is held; else anything. The spelling of this field is fixed, so both sizes stand here as digits
    at: [*mut [u64; 64]; 1024],
    // how often the heap may still be asked; how many blocks may be held; whether it refused. These three fields are fixed, so they are not a `meter::Meter`
    left: u64,
    top: u64,
    failed: bool,
    // the free list, a stack: its first `spare` numbers are those of the blocks that are not held.
    // A type of its own with push and pop would be no plainer: it cannot see `words`, so the heap would still have to say that these blocks are not held, and the proofs by hand of `hold` and `let_go` would each get a call more
    free: [u32; BLOCKS],
    spare: usize,
    // the handle to the allocator
    alloc: Global,
    // what is in each block, and nothing for one that is not held
    ghost words: { List (List ℕ) },
}

impl Model for Heap {
    ghost Value = { State };

    ghost view = { λ h. record { words = h.words; left = h.left; top = h.top; failed = h.failed } };

    ghost invariant = { λ h. Kept h.words h.free h.spare };

    ghost also_owns = { λ h. owned h.at h.words };
}

impl Heap {
    // A heap that holds nothing.
    pub fn new(memory: Memory) -> Heap
        ensures { AtStart (state_ground result) }
    {
        Heap::empty(Global::new(memory))
    }

    // Lets the heap go with what it holds, which is never given back.
    // For a caller that cannot know what is held, since it lent the heap to a function whose contract does not say:
    // if `h.many() == 0` the heap may be dropped, and else only leaked.
    pub fn leak(self) {
        let Self {
            at: _,
            left: _,
            top: _,
            failed: _,
            free: _,
            spare: _,
            alloc: _,
        } = self;
    }
}

// A heap may be dropped only when it holds nothing, so no block is lost by mistake.
impl Drop for Heap {
    fn drop(self)
        requires { held self.words ≡ 0 }
    {
        self.leak();
    }
}
