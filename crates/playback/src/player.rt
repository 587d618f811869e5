// Whoever asks by a script, and notes what is told.
ghost use Rattle.std.specs.Prelude.{◌≡◌, ℕ, ◌-◌, ◌<◌, ◌≤◌, length};
ghost use Rattle.playback.specs.Played.{AllHonest, Answered, asks, asks_in, played, replies, replies_in};

use crate::call::Call;
use crate::note::{Note, Reply};
use crate::notes::Notes;
use things::{Answer, Op, Users};

// What was told is noted; `done` when all is over.
#[derive(Drop)]
pub struct Player<'c, 'a> {
    pub(crate) calls: &'c [Call],
    pub(crate) notes: Notes<'a>,
    pub(crate) done: bool,
    ghost honest: { AllHonest (asks_in notes.written) (replies_in notes.written) (length notes.written) },
}

impl<'c, 'a> Player<'c, 'a> {
    // The replies go out, as far as what was told is what was called; how many.
    pub(crate) fn deliver(&self, calls: &[Call], replies: &mut [Reply]) -> usize
        ensures { Answered result calls.now replies.new }
    {
        let notes = self.notes.written();
        let n = matching(notes, calls).min(replies.len());
        copy_out(&notes[..n], replies);
        n
    }
}

// How many notes, from the first on, are of what was called.
fn matching(notes: &[Note], calls: &[Call]) -> usize
    ensures notes { result ≤ length notes.now }
    ensures calls { result ≤ length calls.now }
    ensures same { (j : ℕ) → j < result → asks calls.now j ≡ asks_in notes.now j }
{
    notes
        .iter()
        .zip(calls)
        .take_while(|(note, call)| note.asked.asks_as(call.asked))
        .count()
}

// The replies that are noted go out, from the first on.
fn copy_out(notes: &[Note], out: &mut [Reply])
    requires { length notes.now ≤ length out.old }
    ensures { (j : ℕ) → j < length notes.now → replies out.new j ≡ replies_in notes.now j }
{
    // by an index: what a zip with `iter_mut` writes is lost to the proof
    for (j, note) in notes.iter().enumerate() {
        out[j] = note.reply;
    }
}

impl<'c, 'a> Users for Player<'c, 'a> {
    ghost shelf = { λ u. played (asks_in u.notes.written) (replies_in u.notes.written) (length u.notes.written) };

    ghost room = { λ u. u.notes.room };

    // Nothing is asked when there is no more room for notes.
    fn next(&mut self) -> Option<Op> {
        if self.notes.is_full() {
            return None;
        }
        let call = self.calls.get(self.notes.len())?;
        Op::try_from(call.asked).ok()
    }

    fn told(&mut self, o: Op, a: Answer, failed: bool, many: u64) {
        self.notes.push(Note::of(o, a, failed, many));
    }

    fn over(&mut self, many: u64) {
        self.done = many == 0;
    }
}
