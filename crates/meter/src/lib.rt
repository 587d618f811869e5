// What a ground counts beside its blocks: how often it may still be asked, how many may be held, and whether one was refused.
#![tactic(auto)]

ghost use Rattle.std.specs.Prelude.{◌≡◌, ◌<◌};
ghost use Rattle.meter.specs.Metered.{unset, allowing, counting, counting_obtain, looking};

#[derive(Debug, Default, Drop)]
pub struct Meter {
    left: u64,
    top: u64,
    failed: bool,
}

impl Meter {
    // Nothing is allowed yet, and nothing was refused.
    pub fn new() -> Meter
        ensures { result ≡ unset }
    {
        Meter::default()
    }

    // How often the ground may still be asked.
    pub fn left(&self) -> u64
        ensures { result ≡ self.now.left }
    {
        self.left
    }

    // So many blocks may be held.
    pub fn top(&self) -> u64
        ensures { result ≡ self.now.top }
    {
        self.top
    }

    pub fn allow(&mut self, asks: u64, top: u64)
        ensures { self.new ≡ allowing asks top self.old }
    {
        self.left = asks;
        self.top = top;
    }

    // The ground was asked once.
    pub fn count(&mut self)
        requires { 0 < self.old.left }
        ensures { self.new ≡ counting self.old }
    {
        self.left -= 1;
    }

    // The ground was asked for a block, and gave this.
    pub fn count_obtain(&mut self, got: Option<u32>)
        requires { 0 < self.old.left }
        ensures { self.new ≡ counting_obtain got self.old }
    {
        self.count();
        self.failed |= got.is_none();
    }

    // Whether a block was refused since this was last asked.
    pub fn look(&mut self) -> bool
        ensures was { result ≡ self.old.failed }
        ensures reset { self.new ≡ looking self.old }
    {
        std::mem::take(&mut self.failed)
    }
}
