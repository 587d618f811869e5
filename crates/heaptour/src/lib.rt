// A word goes through a block of a heap: the block is got, written, read and given back, and the heap is let go.
#![tactic(auto)]

ghost use Rattle.std.specs.Prelude.{◌≡◌, ◌<◌, IfSome};
ghost use Rattle.things.specs.Ground.{AtStart};
ghost use Rattle.heap.specs.Owned.{held};
ghost use Rattle.heaptour.specs.OneBlock.{Holds, Took, Wrote, Read};

use heap::Heap;
use std::rt::Memory;
use things::{Blocks, Bounds};

// How often the heap is asked: for the block, to write, to read, and to give the block back.
const ASKS: u64 = 4;
// The word of the block that is used.
const PLACE: u32 = 3;

// What goes in comes out; or nothing, where the heap had no block: an allocator may refuse at any time.
pub fn carry(memory: Memory, x: u64) -> Option<u64>
    ensures { IfSome result (λ y. y ≡ x) }
{
    let mut h = Heap::new(memory);
    let b = take(&mut h)?;
    write(&mut h, b, PLACE, x);
    let y = read(&mut h, b, PLACE);
    give_back(&mut h, b);
    Some(y)
}

// Lets a heap go of which it isn't known whether it holds anything, and says how many blocks are lost with it.
pub fn let_go(mut h: Heap) -> u64
    ensures lost { result ≡ held h.words }
{
    let lost = h.many();
    if lost == 0 {
        h.drop();
    } else {
        h.leak();
    }
    lost
}

fn take<B: Blocks + Bounds>(h: &mut B) -> Option<u32>
    requires { AtStart (B.as_ground h.old) }
    ensures { Took result 3 (B.as_ground h.new) }
{
    h.allow(ASKS, 1);
    h.obtain()
}

fn write<B: Blocks>(h: &mut B, b: u32, i: u32, x: u64)
    requires held { Holds b (B.as_ground h.old) }
    requires asks { 0 < (B.as_ground h.old).left }
    requires inside { i < 64 }
    ensures { Wrote b i x (B.as_ground h.old) (B.as_ground h.new) }
{
    h.put(b, i, x);
}

fn read<B: Blocks>(h: &mut B, b: u32, i: u32) -> u64
    requires held { Holds b (B.as_ground h.old) }
    requires asks { 0 < (B.as_ground h.old).left }
    requires inside { i < 64 }
    ensures { Read b i result (B.as_ground h.old) (B.as_ground h.new) }
{
    h.get(b, i)
}

fn give_back<B: Blocks>(h: &mut B, b: u32)
    requires held { Holds b (B.as_ground h.old) }
    requires asks { 0 < (B.as_ground h.old).left }
    ensures { (B.as_ground h.new).many ≡ 0 }
{
    h.release(b);
}
