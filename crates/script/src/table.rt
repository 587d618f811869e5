// A keyword and its numbers to what they ask.
ghost use Rattle.std.specs.Prelude.{◌≡◌, ◌-◌, ◌^◌, min};
ghost use Rattle.script.specs.Lines.{found, table};

use crate::line::Line;
use things::Op;

// A name that does not fit is the largest number that does.
fn name(n: u64) -> u32
    ensures { result ≡ min n (2 ^ 32 - 1) }
{
    u32::try_from(n).unwrap_or(u32::MAX)
}

pub fn asked(word: &str, numbers: &[u64]) -> Option<Line>
    ensures { result ≡ found table word.now numbers.now }
{
    // by how many numbers there are first: only the words that take so many are compared
    match numbers {
        [] => match word {
            "held" => Some(Line::Held),
            _ => None,
        },
        &[a] => match word {
            "row" => Some(Line::Call(Op::Row(name(a)))),
            "table" => Some(Line::Call(Op::Table(name(a)))),
            "free" => Some(Line::Call(Op::Free(name(a)))),
            "length" => Some(Line::Call(Op::Length(name(a)))),
            "refuse" => Some(Line::Refuse(a)),
            "room" => Some(Line::Room(a)),
            _ => None,
        },
        &[a, b] => match word {
            "at" => Some(Line::Call(Op::At(name(a), b))),
            "delete" => Some(Line::Call(Op::Delete(name(a), b))),
            "join" => Some(Line::Call(Op::Join(name(a), name(b)))),
            "get" => Some(Line::Call(Op::Get(name(a), b))),
            "drop" => Some(Line::Call(Op::Drop(name(a), b))),
            "least" => Some(Line::Call(Op::Least(name(a), b))),
            "count" => Some(Line::Call(Op::Count(name(a), b))),
            "nth" => Some(Line::Call(Op::Nth(name(a), b))),
            "merge" => Some(Line::Call(Op::Merge(name(a), name(b)))),
            _ => None,
        },
        &[a, b, c] => match word {
            "set" => Some(Line::Call(Op::Set(name(a), b, c))),
            "insert" => Some(Line::Call(Op::Insert(name(a), b, c))),
            "split" => Some(Line::Call(Op::Split(name(a), b, name(c)))),
            "put" => Some(Line::Call(Op::Put(name(a), b, c))),
            "cut" => Some(Line::Call(Op::Cut(name(a), b, name(c)))),
            _ => None,
        },
        _ => None,
    }
}
