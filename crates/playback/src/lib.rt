// Scripts of calls from C or Rust, played on lent memory.
#![tactic(auto)]

ghost use Rattle.std.specs.Prelude.{◌≡◌, OnOk, length};
ghost use Rattle.playback.specs.Outcomes.{Ended, FirstUnknown, Room};

mod call;
mod code;
mod note;
mod notes;
mod outcome;
mod plan;
mod planned;
mod play;
mod player;
mod tag;

pub use call::{Asked, Call, UnknownCode};
use code::CODES;
use lent::Lent;
pub use note::{Note, Reply};
pub use outcome::Outcome;
use outcome::Refused;
pub use planned::Planned;
pub use player::Player;
use things::Users;

// The first call whose code is none, or how many calls there are.
#[unsafe(no_mangle)]
pub extern "C" fn playback_first_unknown(calls: &[Call]) -> usize
    ensures { FirstUnknown calls.now result }
{
    calls
        .iter()
        .position(|c| c.asked.code >= CODES)
        .unwrap_or(calls.len())
}

// All calls, one after another, on as many blocks as `words` and `free` have room for; nothing is held in the end.
#[unsafe(no_mangle)]
pub extern "C" fn playback_play(
    words: &mut [u64],
    free: &mut [u32],
    calls: &[Call],
    draft: &mut [Note],
    replies: &mut [Reply],
    asks: &mut [u64],
) -> Outcome
    ensures { Ended calls.now draft.old replies.old asks.old result draft.new replies.new asks.new }
{
    match check(calls, draft, replies, asks) {
        Ok(()) => Outcome::from(play::play(Lent::over(words, free), calls, draft, replies, asks)),
        Err(reason) => Outcome::from(reason),
    }
}

// Each code is of a call, and there is room for what is noted of each.
fn check(calls: &[Call], draft: &[Note], replies: &[Reply], asks: &[u64]) -> Result<(), Refused>
    ensures known { OnOk result (FirstUnknown calls.now (length calls.now)) }
    ensures room { OnOk result (Room calls.now draft.now replies.now asks.now) }
    ensures unknown { result ≡ Err Refused.UnknownCall → FirstUnknown calls.now (length calls.now) → ⊥ }
    ensures code { result ≡ Err Refused.TooShort → FirstUnknown calls.now (length calls.now) }
    ensures short { result ≡ Err Refused.TooShort → Room calls.now draft.now replies.now asks.now → ⊥ }
{
    let n = calls.len();
    if playback_first_unknown(calls) < n {
        return Err(Refused::UnknownCall);
    }
    if draft.len() < n || replies.len() < n || asks.len() < n {
        return Err(Refused::TooShort);
    }
    Ok(())
}
