// A ground over any other, that refuses blocks on demand.
#![tactic(auto)]

ghost use Rattle.std.specs.Prelude.{◌≡◌};
ghost use Rattle.things.specs.Ground.{AtStart};
ghost use Rattle.ration.specs.Refusing.{ground_of, fresh, refusing, limited};

mod ground;
mod refusal;

use meter::Meter;
use things::Blocks;

#[derive(Drop)]
pub struct Ration<B> {
    inner: B,
    // The ration's own: the ground below is allowed one asking each time that it is asked, so nothing has to tie its count to this one.
    meter: Meter,
    // How many gettings go through before the one that is refused: of the next call, and of this one from now on.
    pending: Option<u64>,
    due: Option<u64>,
    // While so many blocks are held, every getting is refused.
    limit: Option<u64>,
}

impl<B: Blocks> Ration<B> {
    // Over a ground, refusing nothing.
    pub fn over(inner: B) -> Ration<B>
        ensures fresh { result ≡ fresh inner }
        ensures starts { AtStart (B.Blocks.as_ground inner) → AtStart (ground_of B.Blocks.as_ground result) }
    {
        Ration {
            inner,
            meter: Meter::new(),
            pending: None,
            due: None,
            limit: None,
        }
    }
}

impl<B> Ration<B> {
    // The k-th getting of the next call is refused, if there are so many. A call begins where askings are allowed.
    pub fn refuse(&mut self, k: u64)
        ensures { self.new ≡ refusing k self.old }
    {
        self.pending = k.checked_sub(1);
    }

    // While n blocks or more are held, every getting is refused; 0 ends that.
    pub fn set_room(&mut self, n: u64)
        ensures { self.new ≡ limited n self.old }
    {
        self.limit = (n > 0).then_some(n);
    }

    // How often it may still be asked.
    pub fn asks_left(&self) -> u64
        ensures { result ≡ self.now.meter.left }
    {
        self.meter.left()
    }

    // The ground below, as it stands.
    pub fn into_inner(self) -> B
        ensures { result ≡ self.inner }
    {
        let Ration {
            inner,
            meter: _,
            pending: _,
            due: _,
            limit: _,
        } = self;
        inner
    }
}
