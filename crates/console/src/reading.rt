// A script from standard input, to its end.
ghost use Rattle.std.specs.Prelude.{◌≡◌};
ghost use Rattle.things.specs.Ground.{AtStart};
ghost use Rattle.ration.specs.Refusing.{ground_of};
ghost use Rattle.console.specs.Turns.{Ready};

use crate::engine::Engine;
use crate::turns::reply;
use ration::Ration;
use std::io;
use std::io::{BufRead, BufReader, Write};
use things::{Blocks, Bounds, Things};

// Most lines, and any reply, are shorter; a longer line is given more memory.
const LINE: usize = 128;

// Replies of so many bytes are written, whether more lines are at hand or not.
const REPLIES: usize = 4096;

// Replies go out together, but none is kept back while the next line is waited for. What memory this needs is had at the start.
pub fn run<B: Blocks + Bounds>(
    rt: &HostRuntime,
    s: &mut Things,
    b: &mut Ration<B>,
) -> io::Result<()>
    requires { Ready s.old (ground_of B.Blocks.as_ground b.old) }
    ensures { Ready s.new (ground_of B.Blocks.as_ground b.new) }
{
    let mut input = BufReader::new(rt.alloc(), rt.stdin())?;
    let mut line = Vec::with_capacity(rt.alloc(), LINE)?;
    let mut out = String::with_capacity(rt.alloc(), REPLIES + LINE)?;
    // not `input.lines()`: before each line it is looked whether all of it is at hand
    for number in 1..u64::MAX {
        if out.len() > REPLIES || !input.buffer().contains(&b'\n') {
            rt.stdout().write_all(out.as_bytes())?;
            out.clear();
        }
        line.clear();
        if input.read_until(b'\n', &mut line)? == 0 {
            break;
        }
        let text = line.strip_suffix(b"\n").unwrap_or(&line);
        if let Some(r) = reply(s, b, text, number) {
            writeln!(out, "{r}")?;
        }
    }
    rt.stdout().write_all(out.as_bytes())
}

// A script over blocks of which none is held, with refusals on demand; none is held afterwards. The blocks come back even if reading or writing failed.
pub fn play<B: Blocks + Bounds>(rt: &HostRuntime, blocks: B) -> (B, io::Result<()>)
    requires { AtStart (B.Blocks.as_ground blocks) }
    ensures { (B.Blocks.as_ground result.0).many ≡ 0 }
{
    let mut engine = Engine::open(Ration::over(blocks));
    let ran = engine.run(rt);
    (engine.close().into_inner(), ran)
}
