// What comes of a script, and its numbers.
ghost use Rattle.std.specs.Prelude.{◌≡◌, if◌then◌else◌};
ghost use Rattle.playback.specs.Outcomes.{number_of};

// Whether it was played, and how many calls have their replies. Numbers, since C reads them and has no Result.
#[repr(C)]
#[derive(Clone, Copy)]
pub struct Outcome {
    // why nothing was done; 0: it was
    pub refused: u32,
    // 1 when all is over and nothing is held
    pub over: u32,
    pub told: u64,
}

// Why nothing was done: a code is of no call, or a slice has no room for what is noted of each.
#[derive(Clone, Copy, Debug, PartialEq, Eq)]
pub(crate) enum Refused {
    UnknownCall = 1,
    TooShort = 2,
}

// All calls were made: whether all is over and nothing is held, and how many have their replies.
#[derive(Clone, Copy)]
pub(crate) struct Run {
    pub(crate) over: bool,
    pub(crate) told: usize,
}

impl From<Run> for Outcome {
    ghost from_gives = { λ run o. o ≡ record { refused = 0; over = (if run.over then 1 else 0); told = run.told } };

    fn from(run: Run) -> Outcome {
        Outcome {
            refused: 0,
            over: u32::from(run.over),
            told: run.told as u64,
        }
    }
}

impl From<Refused> for Outcome {
    ghost from_gives = { λ e o. o ≡ record { refused = number_of e; over = 0; told = 0 } };

    fn from(reason: Refused) -> Outcome {
        Outcome {
            refused: reason as u32,
            over: 0,
            told: 0,
        }
    }
}
