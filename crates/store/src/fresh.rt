// A block that was got and is in no tree yet: it is given back or becomes part of a tree, and is never dropped.
ghost use Rattle.std.specs.Prelude.{◌≡◌, ◌<◌, MatchResult};
ghost use Rattle.store.specs.Memory.{Stored, refused};
ghost use Rattle.store.specs.Fresh.{Obtained, Returned};

use crate::Store;
use crate::gather::NoRoom;

// It is not `Drop`, so no code can let it go.
pub struct Fresh {
    number: u32,
    ghost small: { number < 1048576 },
}

impl Fresh {
    pub(crate) fn new(number: u32) -> Fresh
        requires { number < 1048576 }
        ensures { result.number ≡ number }
    {
        Fresh { number }
    }

    pub fn obtain<W: Store>(m: &mut W::Memory) -> Result<Fresh, NoRoom>
        requires asks { 0 < (W.Store.memory m.old).left }
        requires room { (W.Store.memory m.old).many < (W.Store.memory m.old).top }
        ensures { MatchResult result (λ f. Obtained (W.Store.memory m.old) f.number (W.Store.memory m.new)) (λ _. W.Store.memory m.new ≡ refused (W.Store.memory m.old)) }
    {
        let number = W::obtain(m).ok_or(NoRoom)?;
        Ok(Fresh::new(number))
    }

    pub fn give_back<W: Store>(self, m: &mut W::Memory)
        requires asks { 0 < (W.Store.memory m.old).left }
        requires held { 0 < (W.Store.memory m.old).many }
        requires there { Stored (W.Store.memory m.old).block self.number }
        ensures { Returned (W.Store.memory m.old) self.number (W.Store.memory m.new) }
    {
        W::release(m, self.into_block());
    }

    // The block becomes part of a tree.
    pub fn into_block(self) -> u32
        ensures block { result ≡ self.number }
        ensures small { result < 1048576 }
    {
        let Fresh { number: block } = self;
        block
    }
}
