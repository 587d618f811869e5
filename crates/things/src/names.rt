// What lies under a name.
ghost use Rattle.std.specs.Prelude.{◌≡◌, ◌<◌, Some, None, slice_set};
ghost use Rattle.things.specs.Names.{found, row_at, slot_at, table_at, vacant};
ghost use Rattle.things.specs.State.{names, slot_of};

use crate::reason::Reason;
use crate::state::{Kept, Things};
use tree::top::Tree;

impl Things {
    // What is under n, or nothing, where n is a name.
    fn slot(&self, n: u32) -> Result<Option<Kept>, Reason>
        ensures { result ≡ slot_at n self.now }
    {
        self.slots.get(n as usize).copied().ok_or(Reason::NoName)
    }

    // What is under n, where something is.
    pub(crate) fn find(&self, n: u32) -> Result<Kept, Reason>
        ensures { result ≡ found n self.now }
    {
        self.slot(n)?.ok_or(Reason::Absent)
    }

    // The row under n. Not one function with find_table, which nothing calls yet: what tells the variants apart would be a function more.
    pub(crate) fn find_row(&self, n: u32) -> Result<Tree, Reason>
        ensures { result ≡ row_at n self.now }
    {
        match self.find(n)? {
            Kept::Row(t) => Ok(t),
            Kept::Table(_) => Err(Reason::OtherKind),
        }
    }

    // The table under n.
    pub(crate) fn find_table(&self, n: u32) -> Result<Tree, Reason>
        ensures { result ≡ table_at n self.now }
    {
        match self.find(n)? {
            Kept::Row(_) => Err(Reason::OtherKind),
            Kept::Table(t) => Ok(t),
        }
    }

    // Nothing is under n.
    pub(crate) fn find_vacant(&self, n: u32) -> Result<(), Reason>
        ensures { result ≡ vacant n self.now }
    {
        match self.slot(n)? {
            None => Ok(()),
            Some(_) => Err(Reason::Taken),
        }
    }

    // x is under n.
    pub(crate) fn lay(&mut self, n: u32, x: Kept)
        requires { n < names }
        ensures { self.new.slots ≡ slice_set self.old.slots n (Some x) }
    {
        self.slots[n as usize] = Some(x);
    }

    // Nothing is under n any more; what was is the result.
    pub(crate) fn take(&mut self, n: u32) -> Option<Kept>
        requires { n < names }
        ensures was { result ≡ slot_of self.old n }
        ensures slots { self.new.slots ≡ slice_set self.old.slots n None }
    {
        self.slots[n as usize].take()
    }
}
