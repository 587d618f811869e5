// What each call is refused, and how often it has asked.
ghost use Rattle.std.specs.Prelude.{◌≡◌, length, slice_index_or};
ghost use Rattle.playback.specs.Planned.{following, spent};
ghost use Rattle.playback.specs.Played.{idle};

use crate::call::Call;

// The calls of a script, and a place for what each of them asked; `call` of them are over.
#[derive(Drop)]
pub(crate) struct Plan<'c, 'a> {
    pub(crate) calls: &'c [Call],
    pub(crate) asks: &'a mut [u64],
    pub(crate) call: usize,
}

impl<'c, 'a> Plan<'c, 'a> {
    // The call that is on; behind the last none refuses anything.
    pub(crate) fn current(&self) -> Call
        ensures { result ≡ slice_index_or self.now.calls.now self.now.call idle }
    {
        self.calls.get(self.call).copied().unwrap_or_default()
    }

    // That call is over, and has asked so often.
    pub(crate) fn end(&mut self, asked: u64)
        ensures asks { self.new.asks.now ≡ spent self.old.asks.now self.old.call asked }
        ensures call { self.new.call ≡ following (length self.old.asks.now) self.old.call }
        ensures calls { self.new.calls.now ≡ self.old.calls.now }
    {
        // by an index: what was written through a slice's `get_mut` is lost to the proof
        if self.call < self.asks.len() {
            self.asks[self.call] = asked;
            self.call += 1;
        }
    }
}
