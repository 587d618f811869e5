// One call, and one line of a script: what it asks is done, and what is replied. On things and a ground that are lent.
ghost use Rattle.std.specs.Prelude.{◌≡◌};
ghost use Rattle.things.specs.Ground.{AtStart};
ghost use Rattle.things.specs.Things.{empty};
ghost use Rattle.things.specs.State.{shelf_of};
ghost use Rattle.script.specs.Lines.{line_of};
ghost use Rattle.ration.specs.Refusing.{ground_of};
ghost use Rattle.console.specs.Turns.{Ready, Told, Began, Replied};

use crate::limits::{ASKS, ASKS_A_BLOCK, ROOM};
use ration::Ration;
use script::{Line, NotALine, Reply};
use things::{Answer, Blocks, Bounds, Op, Things};

// Things on a ground of which nothing is held.
pub fn open<B: Blocks>(b: &B) -> Things
    requires { AtStart (B.Blocks.as_ground b.now) }
    ensures ready { Ready result (B.Blocks.as_ground b.now) }
    ensures empty { shelf_of result (B.Blocks.as_ground b.now).block ≡ empty }
{
    Things::new()
}

// A call is served, with as many askings and blocks as it may have.
pub fn ask<B: Blocks + Bounds>(s: &mut Things, b: &mut B, o: Op) -> Answer
    requires { Ready s.old (B.Blocks.as_ground b.old) }
    ensures told { Told o s.old (B.Blocks.as_ground b.old) result s.new (B.Blocks.as_ground b.new) }
    ensures began { Began B.Blocks.as_ground o (record { things = s.old; blocks = b.old }) result (record { things = s.new; blocks = b.new }) }
{
    // what was refused before this call doesn't count
    let _before = b.failed();
    let many = b.many();
    match o {
        Op::Free(_) => b.allow(ASKS + ASKS_A_BLOCK * many, many),
        _ => b.allow(ASKS, many + ROOM),
    }
    s.serve(b, o)
}

// What a line comes to. `number` is the line's, counted from 1.
pub fn reply<B: Blocks + Bounds>(
    s: &mut Things,
    b: &mut Ration<B>,
    text: &[u8],
    number: u64,
) -> Option<Reply>
    requires { Ready s.old (ground_of B.Blocks.as_ground b.old) }
    ensures ready { Ready s.new (ground_of B.Blocks.as_ground b.new) }
    ensures replied { Replied B.Blocks.as_ground (line_of text.now) number (record { things = s.old; blocks = b.old }) result (record { things = s.new; blocks = b.new }) }
{
    match Line::try_from(text) {
        Ok(Line::Call(o)) => Some(Reply::Told(ask(s, b, o))),
        Ok(Line::Refuse(k)) => {
            b.refuse(k);
            None
        }
        Ok(Line::Room(n)) => {
            b.set_room(n);
            None
        }
        Ok(Line::Held) => Some(Reply::Held(b.many())),
        Err(NotALine) => Some(Reply::NotALine(number)),
    }
}

// Everything is given back.
pub fn close<B: Blocks + Bounds>(s: Things, b: &mut B)
    requires { Ready s (B.Blocks.as_ground b.old) }
    ensures { (B.Blocks.as_ground b.new).many ≡ 0 }
{
    let many = b.many();
    b.allow(ASKS + ASKS_A_BLOCK * many, many);
    s.close(b);
}
