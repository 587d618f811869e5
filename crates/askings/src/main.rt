// How often a call asks the ground: a row of 10,000 words comes at the front and goes, as in the office's script.
#![tactic(auto)]

ghost use Rattle.std.specs.Iterator.{IsFinite};
ghost use Rattle.things.specs.Ground.{AtStart};

use console::{ASKS, Engine};
use lent::{BLOCK_WORDS, Lent};
use ration::Ration;
use std::io;
use things::{Blocks, Bounds, Op};

mod tally;

use tally::Tally;

const BLOCKS: usize = 1024;

const WORDS: usize = BLOCKS * BLOCK_WORDS;

const LENGTH: u64 = 10000;

const ROW: u32 = 6;

// One call, and how often it asked.
fn asks_of<B: Blocks + Bounds>(engine: &mut Engine<Ration<B>>, o: Op) -> u64 {
    let _a = engine.ask(o);
    ASKS.saturating_sub(engine.ground().asks_left())
}

// Call after call, each noted.
fn asks_of_all<B: Blocks + Bounds, I: Iterator<Item = Op> + Drop>(
    engine: &mut Engine<Ration<B>>,
    calls: I,
) -> Tally
    requires can { I.can_next calls }
    requires ends { IsFinite (I.remaining calls) }
{
    let mut tally = Tally::default();
    for o in calls {
        tally.note(asks_of(engine, o));
    }
    tally
}

// Each second of the words from the middle on, which is the next place each time, then of those before it, then what is left.
fn deletes<B: Blocks + Bounds>(engine: &mut Engine<Ration<B>>) -> Tally {
    let middle = LENGTH / 2..LENGTH / 2 + LENGTH / 4;
    let front = 0..LENGTH / 4;
    let rest = (0..LENGTH / 2).map(|_| 0);
    let places = middle.chain(front).chain(rest);
    asks_of_all(engine, places.map(|place| Op::Delete(ROW, place)))
}

fn measure<B: Blocks + Bounds + Drop>(rt: &HostRuntime, blocks: B) -> io::Result<()>
    requires { AtStart (B.Blocks.as_ground blocks) }
{
    let mut engine = Engine::open(Ration::over(blocks));
    let row = asks_of(&mut engine, Op::Row(ROW));
    let insert = asks_of_all(&mut engine, (0..LENGTH).map(|x| Op::Insert(ROW, 0, x)));
    let at = asks_of(&mut engine, Op::At(ROW, LENGTH / 2));
    let set = asks_of(&mut engine, Op::Set(ROW, LENGTH / 2, 7));
    let delete = deletes(&mut engine);
    let _ground = engine.close();
    println!(rt; "row {row}")?;
    println!(rt; "insert {insert}")?;
    println!(rt; "at {at}, set {set}")?;
    println!(rt; "delete {delete}")
}

fn main(rt: HostRuntime) -> anyhow::Result<()> {
    let mut words = vec![in rt.alloc(); 0u64; WORDS]?;
    let mut free = vec![in rt.alloc(); 0u32; BLOCKS]?;
    measure(&rt, Lent::over(&mut words, &mut free))?;
    Ok(())
}
