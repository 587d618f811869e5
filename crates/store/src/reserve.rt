// A few blocks got in advance, which clauses see as the list of their numbers, last in first. It is
// emptied before it is dropped.
ghost use Rattle.std.specs.Prelude.{◌≡◌, ℕ, ◌<◌, ◌≤◌, List, [], ◌∷◌, length, reverse, IfSome, IfNone};
ghost use Rattle.std.specs.List.{All};
ghost use Rattle.store.specs.Reserve.{capacity};

use crate::fresh::Fresh;
use arrayvec::ArrayVec;
use std::marker::Model;

// So many blocks fit.
pub const CAPACITY: usize = 16;

pub struct Reserve {
    numbers: ArrayVec<u32, CAPACITY>,
}

impl Model for Reserve {
    ghost Value = { List ℕ };

    ghost view = { λ r. reverse r.numbers.items };

    ghost invariant = { λ r. All (λ b. b < 1048576) r.numbers.items };
}

impl Drop for Reserve {
    fn drop(self)
        requires { self ≡ [] }
    {
        let Reserve { numbers: _ } = self;
    }
}

impl Reserve {
    pub fn new() -> Reserve
        ensures { result ≡ [] }
    {
        Reserve {
            numbers: ArrayVec::new(),
        }
    }

    pub fn len(&self) -> usize
        ensures value { result ≡ length self.now }
        ensures few { result ≤ capacity }
    {
        self.numbers.len()
    }

    // That a reserve has at most 16 blocks callers may take as given, since they don't see it; here `len` tells it to the proof.
    pub fn push(&mut self, f: Fresh)
        requires { length self.old ≤ capacity → length self.old < capacity }
        ensures pushed { self.new ≡ f.number ∷ self.old }
        ensures few { length self.new ≤ capacity }
    {
        let _few = self.len();
        self.numbers.push(f.into_block());
    }

    pub fn pop(&mut self) -> Option<Fresh>
        ensures some { IfSome result (λ f. self.old ≡ f.number ∷ self.new) }
        ensures none { IfNone result (self.old ≡ []) }
        ensures empty { IfNone result (self.new ≡ []) }
        ensures few { length self.new ≤ capacity }
        ensures lent { length self.old ≤ capacity }
    {
        let _few = self.len();
        let number = self.numbers.pop()?;
        Some(Fresh::new(number))
    }

    pub fn take(&mut self) -> Fresh
        requires { 0 < length self.old }
        ensures taken { self.old ≡ result.number ∷ self.new }
        ensures few { length self.new ≤ capacity }
        ensures lent { length self.old ≤ capacity }
    {
        self.pop().unwrap()
    }
}
