// A ground with a plan: which blocks each call is refused, and how often it asked.
ghost use Rattle.std.specs.Prelude.{◌≡◌, ◌-◌, length};
ghost use Rattle.things.specs.Ground.{AtStart};
ghost use Rattle.ration.specs.Refusing.{begun, ground_of};
ghost use Rattle.playback.specs.Planned.{following, planned, spent};

use crate::call::Call;
use crate::plan::Plan;
use ration::Ration;
use things::{Blocks, Bounds};

// A call begins where askings are allowed, and ends where it is looked whether a block was refused.
#[derive(Drop)]
pub struct Planned<'c, 'a, B> {
    ration: Ration<B>,
    plan: Plan<'c, 'a>,
    allowed: u64,
}

impl<'c, 'a, B: Blocks> Planned<'c, 'a, B> {
    pub fn over(blocks: B, calls: &'c [Call], asks: &'a mut [u64]) -> Planned<'c, 'a, B>
        ensures { AtStart (B.Blocks.as_ground blocks) → AtStart (ground_of B.Blocks.as_ground result.ration) }
    {
        Planned {
            ration: Ration::over(blocks),
            plan: Plan {
                calls,
                asks,
                call: 0,
            },
            allowed: 0,
        }
    }
}

impl<'c, 'a, B: Blocks + Bounds> Planned<'c, 'a, B> {
    // A call begins: what its plan refuses is to be refused.
    fn begin(&mut self, asks: u64, top: u64)
        ensures ration { self.new.ration ≡ begun asks top (planned self.old.plan.calls.now self.old.plan.call self.old.ration) }
        ensures allowed { self.new.allowed ≡ asks }
        ensures call { self.new.plan.call ≡ self.old.plan.call }
    {
        let c = self.plan.current();
        self.ration.refuse(c.refuse);
        self.ration.set_room(c.room);
        self.allowed = asks;
        self.ration.allow(asks, top);
    }

    // A call is over: how often it has asked is noted.
    fn end(&mut self)
        ensures asks { self.new.plan.asks.now ≡ spent self.old.plan.asks.now self.old.plan.call (self.old.allowed - self.old.ration.meter.left) }
        ensures call { self.new.plan.call ≡ following (length self.old.plan.asks.now) self.old.plan.call }
        ensures ration { self.new.ration ≡ self.old.ration }
    {
        let left = self.ration.asks_left();
        self.plan.end(self.allowed.saturating_sub(left));
    }
}

impl<'c, 'a, B: Blocks + Bounds> Blocks for Planned<'c, 'a, B> {
    ghost as_ground = { λ p. ground_of B.Blocks.as_ground p.ration };

    fn obtain(&mut self) -> Option<u32> {
        self.ration.obtain()
    }

    fn release(&mut self, b: u32) {
        self.ration.release(b);
    }

    fn get(&mut self, b: u32, i: u32) -> u64 {
        self.ration.get(b, i)
    }

    fn put(&mut self, b: u32, i: u32, x: u64) {
        self.ration.put(b, i, x);
    }
}

impl<'c, 'a, B: Blocks + Bounds> Bounds for Planned<'c, 'a, B> {
    fn allow(&mut self, asks: u64, top: u64) {
        self.begin(asks, top);
    }

    fn many(&mut self) -> u64 {
        self.ration.many()
    }

    fn failed(&mut self) -> bool {
        self.end();
        self.ration.failed()
    }
}
