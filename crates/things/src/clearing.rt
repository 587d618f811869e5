// What is under a name is given back.
ghost use Rattle.std.specs.Prelude.{◌*◌, ◌<◌, ◌≤◌, Some};
ghost use Rattle.clear.specs.Given.{give_asks};
ghost use Rattle.things.specs.Bridge.{memory_of};
ghost use Rattle.things.specs.State.{Sound, SlotGiven, SlotLies, Cleared, names, slot_blocks};

use crate::Blocks;
use crate::bridge::Ours;
use crate::state::{Kept, Things};
use clear::give_back;
use page::{Rows, Tables};

// Every block of a row or table goes back.
fn give_kept<B: Blocks>(b: &mut B, x: Kept)
    requires lies { SlotLies (memory_of (B.Blocks.as_ground b.old)) (Some x) }
    requires asks { give_asks * slot_blocks (B.Blocks.as_ground b.old).block (Some x) ≤ (B.Blocks.as_ground b.old).left }
    ensures { SlotGiven (Some x) (memory_of (B.Blocks.as_ground b.old)) (memory_of (B.Blocks.as_ground b.new)) }
{
    match x {
        Kept::Row(t) => give_back::<Rows, Ours<B>>(b, t),
        Kept::Table(t) => give_back::<Tables, Ours<B>>(b, t),
    }
}

impl Things {
    // Nothing is under n any more.
    pub(crate) fn clear<B: Blocks>(&mut self, b: &mut B, n: u32)
        requires low { n < names }
        requires sound { Sound self.old (B.Blocks.as_ground b.old).block (B.Blocks.as_ground b.old).many }
        requires asks { give_asks * (B.Blocks.as_ground b.old).many ≤ (B.Blocks.as_ground b.old).left }
        ensures { Cleared n self.old (B.Blocks.as_ground b.old) self.new (B.Blocks.as_ground b.new) }
    {
        if let Some(x) = self.take(n) {
            give_kept(b, x);
        }
    }
}
