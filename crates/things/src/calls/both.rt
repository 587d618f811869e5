// Calls on a row or a table.
ghost use Rattle.things.specs.Reasons.{told_done, told_word};
ghost use Rattle.things.specs.State.{CanFree, CanServe, Served};

use crate::bridge::Ours;
use crate::reason::Reason;
use crate::state::{Kept, Things};
use crate::{Blocks, Op};
use page::{Rows, Tables};
use seek::size;

impl Things {
    // Nothing is under n.
    pub(crate) fn free<B: Blocks>(&mut self, b: &mut B, n: u32) -> Result<(), Reason>
        requires { CanFree self.old (B.Blocks.as_ground b.old) }
        ensures { Served (Op.Free n) self.old (B.Blocks.as_ground b.old) (told_done result) self.new (B.Blocks.as_ground b.new) }
    {
        self.find(n)?;
        self.clear(b, n);
        Ok(())
    }

    // How many words, or pairs.
    pub(crate) fn length<B: Blocks>(&self, b: &mut B, n: u32) -> Result<u64, Reason>
        requires { CanServe self.now (B.Blocks.as_ground b.old) }
        ensures { Served (Op.Length n) self.now (B.Blocks.as_ground b.old) (told_word result) self.now (B.Blocks.as_ground b.new) }
    {
        match self.find(n)? {
            Kept::Row(t) => Ok(size::length::<Rows, Ours<B>>(b, t)),
            Kept::Table(t) => Ok(size::length::<Tables, Ours<B>>(b, t)),
        }
    }
}
