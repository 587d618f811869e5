// Notes that fill a lent slice. The count stands beside it: C lends the memory, and a slice alone can't grow.
ghost use Rattle.std.specs.Prelude.{◌≡◌, ◌+◌, ◌-◌, ◌<◌, ◌↔◌, ◌++◌, ◌∷◌, [], IsTrue, length};

use crate::note::Note;
use std::marker::Model;

// The first `count` are written.
#[derive(Drop)]
pub(crate) struct Notes<'a> {
    lent: &'a mut [Note],
    count: usize,
}

// Seen as the notes that are written, and how many more there is room for.
impl<'a> Model for Notes<'a> {
    ghost use Rattle.std.specs.Prelude.{◌-◌, ◌≤◌, length, take};
    ghost use Rattle.playback.specs.Noted.{Noted};

    ghost Value = { Noted };

    ghost view = { λ a. record { written = take a.count a.lent.now; room = length a.lent.now - a.count } };

    ghost invariant = { λ a. a.count ≤ length a.lent.now };
}

impl<'a> Notes<'a> {
    pub(crate) fn none_on(lent: &'a mut [Note]) -> Notes<'a>
        ensures written { result.written ≡ [] }
        ensures room { result.room ≡ length lent.old }
    {
        Notes { lent, count: 0 }
    }

    pub(crate) fn len(&self) -> usize
        ensures { result ≡ length self.now.written }
    {
        self.count
    }

    pub(crate) fn is_full(&self) -> bool
        ensures { IsTrue result ↔ (self.now.room ≡ 0) }
    {
        self.count == self.lent.len()
    }

    pub(crate) fn written(&self) -> &[Note]
        ensures { result.now ≡ self.now.written }
    {
        &self.lent[..self.count]
    }

    pub(crate) fn push(&mut self, note: Note)
        requires { 0 < self.old.room }
        ensures written { self.new.written ≡ self.old.written ++ (note ∷ []) }
        ensures room { self.new.room ≡ self.old.room - 1 }
    {
        self.lent[self.count] = note;
        self.count += 1;
    }
}
