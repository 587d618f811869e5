// Why a call is turned away, and what is told of it.
ghost use Rattle.std.specs.Prelude.{◌≡◌, MatchResult};
ghost use Rattle.things.specs.declared.Answer.TheVariants.{Done, Word, Pair};
ghost use Rattle.things.specs.declared.reason.Reason.TheVariants as reason;
ghost use Rattle.things.specs.Reasons.{refusal};

use crate::Answer;
use store::gather::NoRoom;

#[derive(Clone, Copy, Debug, PartialEq, Eq)]
pub enum Reason {
    NoName,
    Taken,
    Absent,
    OtherKind,
    NoPlace,
    NotBelow,
    NoKey,
    NotBuilt,
    NoRoom,
}

impl From<NoRoom> for Reason {
    ghost from_gives = { λ _ r. r ≡ reason.NoRoom };

    fn from(_: NoRoom) -> Reason {
        Reason::NoRoom
    }
}

// The one place where the numbers stand.
impl From<Reason> for Answer {
    ghost from_gives = { λ r a. a ≡ refusal r };

    fn from(r: Reason) -> Answer {
        match r {
            Reason::NoName => Answer::No(1),
            Reason::Taken => Answer::No(2),
            Reason::Absent => Answer::No(3),
            Reason::OtherKind => Answer::No(4),
            Reason::NoPlace => Answer::No(5),
            Reason::NotBelow => Answer::No(6),
            Reason::NoKey => Answer::No(7),
            Reason::NotBuilt => Answer::No(9),
            Reason::NoRoom => Answer::Full,
        }
    }
}

impl From<()> for Answer {
    ghost from_gives = { λ _ a. a ≡ Done };

    fn from(_: ()) -> Answer {
        Answer::Done
    }
}

impl From<u64> for Answer {
    ghost from_gives = { λ x a. a ≡ Word x };

    fn from(x: u64) -> Answer {
        Answer::Word(x)
    }
}

impl From<(u64, u64)> for Answer {
    ghost from_gives = { λ p a. a ≡ Pair p.0 p.1 };

    fn from((k, x): (u64, u64)) -> Answer {
        Answer::Pair(k, x)
    }
}

// What a call came to, or why it was turned away.
impl<T: Into<Answer>> From<Result<T, Reason>> for Answer {
    ghost from_gives = { λ r a. MatchResult r (λ x. T.converts x a) (λ e. a ≡ refusal e) };

    fn from(r: Result<T, Reason>) -> Answer {
        match r {
            Ok(x) => x.into(),
            Err(e) => e.into(),
        }
    }
}
