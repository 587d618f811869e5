// What is written of a reply.
ghost use Rattle.std.specs.Prelude.{◌≡◌, ◌++◌, Some, string_bytes, OnOk};
ghost use Rattle.script.specs.Replies.{text_of};

use std::alloc::AllocError;
use std::fmt;
use things::Answer;

// `NotALine` holds the number of the line.
#[derive(Clone, Copy)]
pub enum Reply {
    Told(Answer),
    Held(u64),
    NotALine(u64),
}

impl fmt::Display for Reply {
    ghost output = { λ r. Some (text_of r) };

    fn fmt<W: fmt::Write>(&self, f: &mut fmt::Formatter<W>) -> fmt::Result {
        match *self {
            Reply::Told(Answer::Done) => f.write_str("done"),
            Reply::Told(Answer::Word(x)) => write!(f, "word {x}"),
            Reply::Told(Answer::Pair(k, x)) => write!(f, "pair {k} {x}"),
            Reply::Told(Answer::No(k)) => write!(f, "no {k}"),
            Reply::Told(Answer::Full) => f.write_str("full"),
            Reply::Held(n) => write!(f, "held {n}"),
            Reply::NotALine(n) => write!(f, "line {n}?"),
        }
    }
}

// Adds the text of a reply to what stands in `out`, which grows as a `Vec` does.
pub fn write(out: &mut String, reply: Reply) -> Result<(), AllocError>
    ensures { OnOk result (string_bytes out.new ≡ string_bytes out.old ++ text_of reply) }
{
    write!(out, "{reply}").map_err(|_| AllocError)
}
