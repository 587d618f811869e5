// Calls on rows.
ghost use Rattle.things.specs.Reasons.{told_done, told_word};
ghost use Rattle.things.specs.State.{CanServe, Served};

use crate::bridge::Ours;
use crate::reason::Reason;
use crate::state::{EMPTY, Kept, Things};
use crate::{Blocks, Op};
use page::Rows;
use seek::{items, size};

impl Things {
    // An empty row under n.
    pub(crate) fn row<B: Blocks>(&mut self, b: &mut B, n: u32) -> Result<(), Reason>
        requires { CanServe self.old (B.Blocks.as_ground b.old) }
        ensures { Served (Op.Row n) self.old (B.Blocks.as_ground b.old) (told_done result) self.new (B.Blocks.as_ground b.new) }
    {
        self.find_vacant(n)?;
        self.lay(n, Kept::Row(EMPTY));
        Ok(())
    }

    // The word at i.
    pub(crate) fn at<B: Blocks>(&self, b: &mut B, n: u32, i: u64) -> Result<u64, Reason>
        requires { CanServe self.now (B.Blocks.as_ground b.old) }
        ensures { Served (Op.At n i) self.now (B.Blocks.as_ground b.old) (told_word result) self.now (B.Blocks.as_ground b.new) }
    {
        let t = self.find_place(b, n, i)?;
        Ok(items::at::<Rows, Ours<B>>(b, t, i))
    }

    // The word at i is x.
    pub(crate) fn set<B: Blocks>(&mut self, b: &mut B, n: u32, i: u64, x: u64) -> Result<(), Reason>
        requires { CanServe self.old (B.Blocks.as_ground b.old) }
        ensures { Served (Op.Set n i x) self.old (B.Blocks.as_ground b.old) (told_done result) self.new (B.Blocks.as_ground b.new) }
    {
        let t = self.find_place(b, n, i)?;
        items::set::<Rows, Ours<B>>(b, t, i, x);
        Ok(())
    }

    // x is at i; what stood there and behind it is one further.
    pub(crate) fn insert<B: Blocks>(
        &mut self,
        b: &mut B,
        n: u32,
        i: u64,
        x: u64,
    ) -> Result<(), Reason>
        requires { CanServe self.old (B.Blocks.as_ground b.old) }
        ensures { Served (Op.Insert n i x) self.old (B.Blocks.as_ground b.old) (told_done result) self.new (B.Blocks.as_ground b.new) }
    {
        let t = self.find_row(n)?;
        if i > size::length::<Rows, Ours<B>>(b, t) {
            return Err(Reason::NoPlace);
        }
        let u = grow::insert::insert::<Rows, Ours<B>>(b, t, i, x)?;
        self.lay(n, Kept::Row(u));
        Ok(())
    }

    // The word at i goes, and is told; what stood behind it is one nearer.
    pub(crate) fn delete<B: Blocks>(&mut self, b: &mut B, n: u32, i: u64) -> Result<u64, Reason>
        requires { CanServe self.old (B.Blocks.as_ground b.old) }
        ensures { Served (Op.Delete n i) self.old (B.Blocks.as_ground b.old) (told_word result) self.new (B.Blocks.as_ground b.new) }
    {
        let t = self.find_place(b, n, i)?;
        let (u, x) = shrink::delete::delete::<Rows, Ours<B>>(b, t, i);
        self.lay(n, Kept::Row(u));
        Ok(x)
    }

    // The words from i on are a row under m.
    pub(crate) fn split<B: Blocks>(
        &mut self,
        b: &mut B,
        n: u32,
        i: u64,
        m: u32,
    ) -> Result<(), Reason>
        requires { CanServe self.old (B.Blocks.as_ground b.old) }
        ensures { Served (Op.Split n i m) self.old (B.Blocks.as_ground b.old) (told_done result) self.new (B.Blocks.as_ground b.new) }
    {
        Err(Reason::NotBuilt)
    }

    // m's words stand behind n's; nothing is under m.
    pub(crate) fn join<B: Blocks>(&mut self, b: &mut B, n: u32, m: u32) -> Result<(), Reason>
        requires { CanServe self.old (B.Blocks.as_ground b.old) }
        ensures { Served (Op.Join n m) self.old (B.Blocks.as_ground b.old) (told_done result) self.new (B.Blocks.as_ground b.new) }
    {
        Err(Reason::NotBuilt)
    }
}
