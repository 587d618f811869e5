// Things on their ground, between two calls.
ghost use Rattle.std.specs.Prelude.{◌≡◌};
ghost use Rattle.things.specs.Ground.{AtStart};
ghost use Rattle.things.specs.Things.{empty};
ghost use Rattle.things.specs.State.{shelf_of};
ghost use Rattle.script.specs.Lines.{line_of};
ghost use Rattle.ration.specs.Refusing.{ground_of};
ghost use Rattle.console.specs.Turns.{Ready, Told, Began, Replied};

use crate::reading::run;
use crate::turns::{ask, close, open, reply};
use ration::Ration;
use script::Reply;
use std::io;
use std::marker::Model;
use things::{Answer, Blocks, Bounds, Op, Things};

// It can't be let go, only closed.
pub struct Engine<G: Blocks> {
    pub(crate) things: Things,
    pub(crate) ground: G,
}

impl<G: Blocks> Model for Engine<G> {
    ghost use Rattle.console.specs.Turns.{State, Ready};

    ghost Value = { State G };

    ghost view = { λ s. record { things = s.things; blocks = s.ground } };

    ghost invariant = { λ s. Ready s.things (G.Blocks.as_ground s.ground) };
}

impl<G: Blocks> Engine<G> {
    // On a ground of which nothing is held.
    pub fn open(ground: G) -> Engine<G>
        requires { AtStart (G.Blocks.as_ground ground) }
        ensures ready { Ready result.things (G.Blocks.as_ground result.blocks) }
        ensures empty { shelf_of result.things (G.Blocks.as_ground result.blocks).block ≡ empty }
        ensures ground { result.blocks ≡ ground }
    {
        let things = open(&ground);
        Engine::of(things, ground)
    }

    // Of things and a ground that fit.
    pub fn of(things: Things, ground: G) -> Engine<G>
        requires { Ready things (G.Blocks.as_ground ground) }
        ensures things { result.things ≡ things }
        ensures ground { result.blocks ≡ ground }
    {
        Engine { things, ground }
    }

    // The things and their ground, which still fit.
    pub fn into_parts(self) -> (Things, G)
        ensures things { result.0 ≡ self.things }
        ensures ground { result.1 ≡ self.blocks }
        ensures ready { Ready result.0 (G.Blocks.as_ground result.1) }
    {
        let Self { things, ground } = self;
        (things, ground)
    }

    // The ground, as it stands.
    pub fn ground(&self) -> &G
        ensures { result.now ≡ self.now.blocks }
    {
        &self.ground
    }
}

impl<G: Blocks + Bounds> Engine<G> {
    // A call is served, with as many askings and blocks as it may have.
    pub fn ask(&mut self, o: Op) -> Answer
        ensures told { Told o self.old.things (G.Blocks.as_ground self.old.blocks) result self.new.things (G.Blocks.as_ground self.new.blocks) }
        ensures began { Began G.Blocks.as_ground o self.old result self.new }
    {
        ask(&mut self.things, &mut self.ground, o)
    }

    // Everything is given back.
    pub fn close(self) -> G
        ensures { (G.Blocks.as_ground result).many ≡ 0 }
    {
        let Engine { things, mut ground } = self;
        close(things, &mut ground);
        ground
    }
}

impl<B: Blocks + Bounds> Engine<Ration<B>> {
    // What a line comes to. `number` is the line's, counted from 1.
    pub fn reply(&mut self, text: &[u8], number: u64) -> Option<Reply>
        ensures ready { Ready self.new.things (ground_of B.Blocks.as_ground self.new.blocks) }
        ensures replied { Replied B.Blocks.as_ground (line_of text.now) number self.old result self.new }
    {
        reply(&mut self.things, &mut self.ground, text, number)
    }

    // A script from standard input, to its end.
    pub fn run(&mut self, rt: &HostRuntime) -> io::Result<()>
        ensures { Ready self.new.things (ground_of B.Blocks.as_ground self.new.blocks) }
    {
        run(rt, &mut self.things, &mut self.ground)
    }
}
