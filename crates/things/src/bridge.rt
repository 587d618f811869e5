// The ground as the trees see it.
ghost use Rattle.std.specs.Prelude.{◌≡◌, ℕ, ◌+◌, ◌<◌, length, get_or};
ghost use Rattle.things.specs.Bridge.{memory_of};

use crate::Blocks;
use std::marker::PhantomData;
use store::Store;

// It has no value. An impl of Store for B itself is refused, since Store is of another crate; an adapter that holds a `&mut B` would have to say after each call that it is still the same one.
pub struct Ours<B> {
    of: PhantomData<B>,
}

impl<B: Blocks> Store for Ours<B> {
    type Memory = B;

    ghost memory = { λ b. memory_of (B.Blocks.as_ground b) };

    fn obtain(m: &mut B) -> Option<u32> {
        m.obtain()
    }

    fn release(m: &mut B, b: u32) {
        m.release(b)
    }

    fn get(m: &mut B, b: u32, i: u32) -> u64 {
        m.get(b, i)
    }

    fn put(m: &mut B, b: u32, i: u32, x: u64) {
        m.put(b, i, x)
    }
}
