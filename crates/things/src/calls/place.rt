// A place of a row.
ghost use Rattle.std.specs.Prelude.{◌≡◌};
ghost use Rattle.seek.specs.Asks.{length_asks};
ghost use Rattle.tree.specs.Pages.{Reading};
ghost use Rattle.things.specs.Bridge.{memory_of};
ghost use Rattle.things.specs.Names.{place_at};
ghost use Rattle.things.specs.State.{CanServe};

use crate::Blocks;
use crate::bridge::Ours;
use crate::reason::Reason;
use crate::state::Things;
use page::Rows;
use seek::size;
use tree::top::Tree;

impl Things {
    // The row under n, which has a place i.
    pub(crate) fn find_place<B: Blocks>(&self, b: &mut B, n: u32, i: u64) -> Result<Tree, Reason>
        requires { CanServe self.now (B.Blocks.as_ground b.old) }
        ensures place { result ≡ place_at n i self.now (B.Blocks.as_ground b.old).block }
        ensures same { Reading length_asks (memory_of (B.Blocks.as_ground b.old)) (memory_of (B.Blocks.as_ground b.new)) }
    {
        let t = self.find_row(n)?;
        if i < size::length::<Rows, Ours<B>>(b, t) {
            Ok(t)
        } else {
            Err(Reason::NoPlace)
        }
    }
}
