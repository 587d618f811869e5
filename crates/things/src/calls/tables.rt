// Calls on tables.
ghost use Rattle.things.specs.Reasons.{told_done, told_pair, told_word};
ghost use Rattle.things.specs.State.{CanServe, Served};

use crate::reason::Reason;
use crate::state::Things;
use crate::{Blocks, Op};

impl Things {
    // An empty table under n.
    pub(crate) fn table<B: Blocks>(&mut self, b: &mut B, n: u32) -> Result<(), Reason>
        requires { CanServe self.old (B.Blocks.as_ground b.old) }
        ensures { Served (Op.Table n) self.old (B.Blocks.as_ground b.old) (told_done result) self.new (B.Blocks.as_ground b.new) }
    {
        Err(Reason::NotBuilt)
    }

    // The key k has x.
    pub(crate) fn put<B: Blocks>(&mut self, b: &mut B, n: u32, k: u64, x: u64) -> Result<(), Reason>
        requires { CanServe self.old (B.Blocks.as_ground b.old) }
        ensures { Served (Op.Put n k x) self.old (B.Blocks.as_ground b.old) (told_done result) self.new (B.Blocks.as_ground b.new) }
    {
        Err(Reason::NotBuilt)
    }

    // The word of the key k.
    pub(crate) fn get<B: Blocks>(&self, b: &mut B, n: u32, k: u64) -> Result<u64, Reason>
        requires { CanServe self.now (B.Blocks.as_ground b.old) }
        ensures { Served (Op.Get n k) self.now (B.Blocks.as_ground b.old) (told_word result) self.now (B.Blocks.as_ground b.new) }
    {
        Err(Reason::NotBuilt)
    }

    // The key k goes, and its word is told.
    pub(crate) fn drop_key<B: Blocks>(&mut self, b: &mut B, n: u32, k: u64) -> Result<u64, Reason>
        requires { CanServe self.old (B.Blocks.as_ground b.old) }
        ensures { Served (Op.Drop n k) self.old (B.Blocks.as_ground b.old) (told_word result) self.new (B.Blocks.as_ground b.new) }
    {
        Err(Reason::NotBuilt)
    }

    // The first pair with a key of k or more.
    pub(crate) fn least<B: Blocks>(&self, b: &mut B, n: u32, k: u64) -> Result<(u64, u64), Reason>
        requires { CanServe self.now (B.Blocks.as_ground b.old) }
        ensures { Served (Op.Least n k) self.now (B.Blocks.as_ground b.old) (told_pair result) self.now (B.Blocks.as_ground b.new) }
    {
        Err(Reason::NotBuilt)
    }

    // How many keys are below k.
    pub(crate) fn count<B: Blocks>(&self, b: &mut B, n: u32, k: u64) -> Result<u64, Reason>
        requires { CanServe self.now (B.Blocks.as_ground b.old) }
        ensures { Served (Op.Count n k) self.now (B.Blocks.as_ground b.old) (told_word result) self.now (B.Blocks.as_ground b.new) }
    {
        Err(Reason::NotBuilt)
    }

    // The pair at i, from 0.
    pub(crate) fn nth<B: Blocks>(&self, b: &mut B, n: u32, i: u64) -> Result<(u64, u64), Reason>
        requires { CanServe self.now (B.Blocks.as_ground b.old) }
        ensures { Served (Op.Nth n i) self.now (B.Blocks.as_ground b.old) (told_pair result) self.now (B.Blocks.as_ground b.new) }
    {
        Err(Reason::NotBuilt)
    }

    // The pairs from k on are a table under m.
    pub(crate) fn cut<B: Blocks>(&mut self, b: &mut B, n: u32, k: u64, m: u32) -> Result<(), Reason>
        requires { CanServe self.old (B.Blocks.as_ground b.old) }
        ensures { Served (Op.Cut n k m) self.old (B.Blocks.as_ground b.old) (told_done result) self.new (B.Blocks.as_ground b.new) }
    {
        Err(Reason::NotBuilt)
    }

    // m's pairs stand behind n's; nothing is under m.
    pub(crate) fn merge<B: Blocks>(&mut self, b: &mut B, n: u32, m: u32) -> Result<(), Reason>
        requires { CanServe self.old (B.Blocks.as_ground b.old) }
        ensures { Served (Op.Merge n m) self.old (B.Blocks.as_ground b.old) (told_done result) self.new (B.Blocks.as_ground b.new) }
    {
        Err(Reason::NotBuilt)
    }
}
