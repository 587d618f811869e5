// The smallest value that owns memory: one word behind a raw pointer, written and read.
// Its two proofs are the ones to read first: docs/PROOFS-BY-HAND.md.
#![tactic(auto)]

ghost use Rattle.std.specs.Prelude.{◌≡◌, ℕ};
ghost use Rattle.std.specs.Borrow.{full_share, u64};
ghost use Rattle.std.specs.Ptr.{lies_at};

use std::marker::Model;

pub struct OneWord {
    at: *mut u64,
    ghost word: { ℕ },
}

impl Model for OneWord {
    ghost also_owns = { λ o. lies_at u64 full_share o.at o.word };
}

impl OneWord {
    pub fn put(&mut self, x: u64)
        ensures { self.new.word ≡ x }
    {
        unsafe {
            *self.at = x;
        }
    }

    pub fn get(&mut self) -> u64
        ensures word { result ≡ self.old.word }
        ensures unchanged { self.new.word ≡ self.old.word }
    {
        unsafe { *self.at }
    }
}
