// A line of text to what it asks.
ghost use Rattle.std.specs.Prelude.{◌≡◌, [], ◌∷◌, MatchOption};
ghost use Rattle.std.specs.Result.{result_ok};
ghost use Rattle.script.specs.Lines.{words, number, line_of};
ghost use Rattle.script.specs.Reads.{Reads};

use crate::line::{Line, NotALine};
use crate::table::asked;
use std::str::FromStr;

// The first word and what follows its space, if there is one.
fn cut(text: &str) -> Option<(&str, &str)>
    ensures { MatchOption result (words text.now ≡ text.now ∷ []) (λ p. words text.now ≡ p.0.now ∷ words p.1.now) }
{
    text.split_once(' ')
}

// A number, which may have a plus sign before it; none that is too large.
fn signed(text: &str) -> Option<u64>
    ensures { Reads text.now result }
{
    text.parse().ok()
}

// A number: digits alone, with no sign.
fn number(text: &str) -> Option<u64>
    ensures { result ≡ number text.now }
{
    if text.starts_with('+') {
        return None;
    }
    signed(text)
}

#[tactic(auto, using(crate::proofs::Figures::as_one))]
fn line(text: &str) -> Option<Line>
    ensures { result ≡ line_of text.now }
{
    let Some((word, rest)) = cut(text) else {
        return asked(text, &[]);
    };
    let Some((first, after)) = cut(rest) else {
        return asked(word, &[number(rest)?]);
    };
    let Some((second, third)) = cut(after) else {
        return asked(word, &[number(first)?, number(after)?]);
    };
    // a fourth word would leave a space in what is read here
    asked(word, &[number(first)?, number(second)?, number(third)?])
}

impl FromStr for Line {
    type Err = NotALine;

    ghost from_str_gives = { λ text r. result_ok r ≡ line_of text };

    fn from_str(text: &str) -> Result<Line, NotALine> {
        line(text).ok_or(NotALine)
    }
}

// The bytes of a line, without their end of line.
impl TryFrom<&[u8]> for Line {
    type Error = NotALine;

    ghost try_from_gives = { λ text r. result_ok r ≡ line_of text.now };

    #[tactic(auto, using(crate::proofs::Texts::not_text))]
    fn try_from(text: &[u8]) -> Result<Line, NotALine> {
        match std::str::from_utf8(text) {
            Ok(text) => text.parse(),
            Err(_) => Err(NotALine),
        }
    }
}

// What the bytes of a line ask, without their end of line; nothing if they are not a line.
pub fn parse(text: &[u8]) -> Option<Line>
    ensures { result ≡ line_of text.now }
{
    Line::try_from(text).ok()
}
