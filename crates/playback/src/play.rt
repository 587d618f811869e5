// A script is played to its end.
ghost use Rattle.things.specs.Ground.{AtStart};
ghost use Rattle.playback.specs.Played.{Answered};

use crate::call::Call;
use crate::note::{Note, Reply};
use crate::notes::Notes;
use crate::outcome::Run;
use crate::planned::Planned;
use crate::player::Player;
use things::{Blocks, Bounds, Users, times};

// Over blocks of which none is held. Notes are made in `draft`, and how often each call asked is noted in `asks`.
// The slices stand apart, as they are lent: the first goes to the player, the last to the ground, and the replies are written after both.
#[tactic(auto, unfolding(crate::specs::Played::played))]
pub(crate) fn play<B: Blocks + Bounds + Drop>(
    blocks: B,
    calls: &[Call],
    draft: &mut [Note],
    replies: &mut [Reply],
    asks: &mut [u64],
) -> Run
    requires { AtStart (B.Blocks.as_ground blocks) }
    ensures { Answered result.told calls.now replies.new }
{
    let mut ground = Planned::over(blocks, calls, asks);
    let mut player = Player {
        calls,
        notes: Notes::none_on(draft),
        done: false,
    };
    times(&mut ground, &mut player, calls.len() as u64);
    Run {
        over: player.done,
        told: player.deliver(calls, replies),
    }
}
