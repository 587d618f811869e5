// A ration is a ground.
ghost use Rattle.std.specs.Prelude.{◌≡◌, ◌<◌, ◌≤◌, slice_index};
ghost use Rattle.things.specs.Ground.{Held, Obtains, allowed, counted, looked, released, written};
ghost use Rattle.ration.specs.Refusing.{ground_of, Kept, Passed, Rationed, begun, seen};

use crate::Ration;
use things::{Blocks, Bounds};

impl<B: Blocks + Bounds> Ration<B> {
    // Spends an asking, which the ground below then has.
    fn pass(&mut self)
        requires { 0 < self.old.meter.left }
        ensures { Passed B.Blocks.as_ground (λ g. g) self.old self.new }
    {
        self.meter.count();
        self.inner.allow(1, self.meter.top());
    }
}

impl<B: Blocks + Bounds> Blocks for Ration<B> {
    ghost as_ground = { λ r. ground_of B.Blocks.as_ground r };

    fn obtain(&mut self) -> Option<u32>
        requires asks { 0 < self.old.meter.left }
        requires room { (B.Blocks.as_ground self.old.inner).many < self.old.meter.top }
        ensures obtains { Obtains (ground_of B.Blocks.as_ground self.old) result (ground_of B.Blocks.as_ground self.new) }
        ensures rationed { Rationed B.Blocks.as_ground self.old result self.new }
    {
        self.ask_below()
    }

    fn release(&mut self, b: u32)
        requires asks { 0 < self.old.meter.left }
        requires held { Held (ground_of B.Blocks.as_ground self.old) b }
        ensures released { ground_of B.Blocks.as_ground self.new ≡ released b (ground_of B.Blocks.as_ground self.old) }
        ensures passed { Passed B.Blocks.as_ground (released b) self.old self.new }
    {
        self.pass();
        self.inner.release(b);
    }

    fn get(&mut self, b: u32, i: u32) -> u64
        requires asks { 0 < self.old.meter.left }
        requires held { Held (ground_of B.Blocks.as_ground self.old) b }
        requires place { i < 64 }
        ensures word { result ≡ slice_index ((ground_of B.Blocks.as_ground self.old).block b) i }
        ensures counted { ground_of B.Blocks.as_ground self.new ≡ counted (ground_of B.Blocks.as_ground self.old) }
        ensures passed { Passed B.Blocks.as_ground counted self.old self.new }
    {
        self.pass();
        self.inner.get(b, i)
    }

    fn put(&mut self, b: u32, i: u32, x: u64)
        requires asks { 0 < self.old.meter.left }
        requires held { Held (ground_of B.Blocks.as_ground self.old) b }
        requires place { i < 64 }
        ensures written { ground_of B.Blocks.as_ground self.new ≡ written b i x (ground_of B.Blocks.as_ground self.old) }
        ensures passed { Passed B.Blocks.as_ground (written b i x) self.old self.new }
    {
        self.pass();
        self.inner.put(b, i, x);
    }
}

impl<B: Blocks + Bounds> Bounds for Ration<B> {
    fn allow(&mut self, asks: u64, top: u64)
        ensures allowed { ground_of B.Blocks.as_ground self.new ≡ allowed asks top (ground_of B.Blocks.as_ground self.old) }
        ensures begun { self.new ≡ begun asks top self.old }
    {
        self.meter.allow(asks, top);
        self.due = self.pending.take();
    }

    fn many(&mut self) -> u64
        ensures many { result ≡ (ground_of B.Blocks.as_ground self.old).many }
        ensures small { result ≤ 1048576 }
        ensures same { ground_of B.Blocks.as_ground self.new ≡ ground_of B.Blocks.as_ground self.old }
        ensures kept { Kept B.Blocks.as_ground self.old self.new }
    {
        self.inner.many()
    }

    fn failed(&mut self) -> bool
        ensures failed { result ≡ (ground_of B.Blocks.as_ground self.old).failed }
        ensures looked { ground_of B.Blocks.as_ground self.new ≡ looked (ground_of B.Blocks.as_ground self.old) }
        ensures seen { self.new ≡ seen self.old }
    {
        self.meter.look()
    }
}
