// When a getting is refused.
ghost use Rattle.std.specs.Prelude.{◌≡◌, ◌<◌};
ghost use Rattle.ration.specs.Refusing.{Decided, Looked, Rationed};

use crate::Ration;
use things::{Blocks, Bounds};

impl<B: Blocks + Bounds> Ration<B> {
    // A block from below, unless that is refused. Either way an asking is counted.
    pub(crate) fn ask_below(&mut self) -> Option<u32>
        requires asks { 0 < self.old.meter.left }
        requires room { (B.Blocks.as_ground self.old.inner).many < self.old.meter.top }
        ensures { Rationed B.Blocks.as_ground self.old result self.new }
    {
        if self.refuses() {
            self.meter.count_obtain(None);
            return None;
        }
        self.inner.allow(1, self.meter.top());
        let got = self.inner.obtain();
        self.meter.count_obtain(got);
        got
    }

    // Whether this getting is refused. It counts either way.
    fn refuses(&mut self) -> bool
        ensures { Decided B.Blocks.as_ground self.old result self.new }
    {
        let named = self.due == Some(0);
        self.due = self.due.and_then(|n| n.checked_sub(1));
        named || self.is_full()
    }

    // Whether there is a limit, and so many blocks are held.
    fn is_full(&mut self) -> bool
        ensures { Looked B.Blocks.as_ground self.old result self.new }
    {
        match self.limit {
            Some(n) => self.inner.many() >= n,
            None => false,
        }
    }
}
