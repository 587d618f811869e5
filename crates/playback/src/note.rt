// An answer as numbers, and what is noted with it.
ghost use Rattle.std.specs.Prelude.{◌≡◌};
ghost use Rattle.playback.specs.Numbers.{answer_of};
ghost use Rattle.playback.specs.Played.{Tells};

use crate::call::Asked;
use crate::tag;
use things::{Answer, Op};

// The answer: `tag` is one of tag.rt; WORD has the word `a`, PAIR the pair `a` and `b`, NO was turned away by the number `reason`.
// With it whether a block was refused meanwhile (1; else 0), and how many were held then. Numbers, since C reads them.
#[repr(C)]
#[derive(Clone, Copy, Default)]
pub struct Reply {
    pub tag: u32,
    pub reason: u32,
    pub a: u64,
    pub b: u64,
    pub refused: u64,
    pub held: u64,
}

impl From<Answer> for Reply {
    ghost from_gives = { λ a reply. answer_of reply ≡ a };

    fn from(a: Answer) -> Reply {
        match a {
            Answer::Done => Reply {
                tag: tag::DONE,
                ..Reply::default()
            },
            Answer::Word(x) => Reply {
                tag: tag::WORD,
                a: x,
                ..Reply::default()
            },
            Answer::Pair(k, x) => Reply {
                tag: tag::PAIR,
                a: k,
                b: x,
                ..Reply::default()
            },
            Answer::No(k) => Reply {
                tag: tag::NO,
                reason: k,
                ..Reply::default()
            },
            Answer::Full => Reply {
                tag: tag::FULL,
                ..Reply::default()
            },
        }
    }
}

// What was asked, and the reply.
#[repr(C)]
#[derive(Clone, Copy)]
pub struct Note {
    pub asked: Asked,
    pub reply: Reply,
}

impl Note {
    pub fn of(o: Op, a: Answer, failed: bool, many: u64) -> Note
        ensures { Tells o a failed many result }
    {
        Note {
            asked: Asked::from(o),
            reply: Reply {
                refused: u64::from(failed),
                held: many,
                ..Reply::from(a)
            },
        }
    }
}
