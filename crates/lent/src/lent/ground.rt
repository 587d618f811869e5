// Lent blocks are a ground.
ghost use Rattle.std.specs.Prelude.{◌≡◌, ◌<◌, false, length, min, is_some};
ghost use Rattle.things.specs.Ground.{AtStart, Obtains};
ghost use Rattle.lent.specs.Sizes.{most_blocks, blocks_within};
ghost use Rattle.lent.specs.Lying.{ground_of};

use super::{BLOCK_WORDS, Lent, MOST_BLOCKS};
use crate::stack::Stack;
use meter::Meter;
use things::{Blocks, Bounds};

// As many blocks as there are, with a number for each, but no more than there may be.
fn fitting(blocks: usize, numbers: usize) -> usize
    ensures { result ≡ min blocks (min numbers most_blocks) }
{
    blocks.min(numbers.min(MOST_BLOCKS))
}

impl<'a> Lent<'a> {
    // As many blocks as both have room for, of which none is held.
    pub fn over(words: &'a mut [u64], free: &'a mut [u32]) -> Lent<'a>
        ensures none { AtStart (ground_of result) }
        ensures size { length result.blocks.now ≡ blocks_within (length words.old) (length free.old) }
    {
        let (blocks, _rest) = words.as_chunks_mut::<BLOCK_WORDS>();
        let size = fitting(blocks.len(), free.len());
        Lent {
            blocks: &mut blocks[..size],
            free: Stack::full(&mut free[..size]),
            meter: Meter::new(),
        }
    }

    // A block that is free, now held; none only when all are held.
    pub fn acquire(&mut self) -> Option<u32>
        requires { 0 < self.old.meter.left }
        ensures gets { Obtains (ground_of self.old) result (ground_of self.new) }
        ensures full { is_some result ≡ false → (ground_of self.old).many ≡ length self.old.blocks.now }
    {
        let got = self.free.pop();
        self.meter.count_obtain(got);
        got
    }
}

impl<'a> Blocks for Lent<'a> {
    ghost as_ground = { ground_of };

    fn obtain(&mut self) -> Option<u32> {
        self.acquire()
    }

    fn release(&mut self, b: u32) {
        self.meter.count();
        self.free.push(b);
    }

    fn get(&mut self, b: u32, i: u32) -> u64 {
        self.meter.count();
        self.blocks[b as usize][i as usize]
    }

    fn put(&mut self, b: u32, i: u32, x: u64) {
        self.meter.count();
        self.blocks[b as usize][i as usize] = x;
    }
}

impl<'a> Bounds for Lent<'a> {
    fn allow(&mut self, asks: u64, top: u64) {
        self.meter.allow(asks, top);
    }

    fn many(&mut self) -> u64 {
        (self.blocks.len() - self.free.len()) as u64
    }

    fn failed(&mut self) -> bool {
        self.meter.look()
    }
}
