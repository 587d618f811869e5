// How many calls there were, how often they asked together, and the most that one did.
use std::fmt;

#[derive(Default, Drop)]
pub struct Tally {
    calls: u64,
    asks: u64,
    most: u64,
}

impl Tally {
    pub fn note(&mut self, asks: u64) {
        self.calls = self.calls.saturating_add(1);
        self.asks = self.asks.saturating_add(asks);
        self.most = self.most.max(asks);
    }
}

impl fmt::Display for Tally {
    fn fmt<W: fmt::Write>(&self, f: &mut fmt::Formatter<W>) -> fmt::Result {
        let mean = self.asks / self.calls.max(1);
        write!(
            f,
            "{} calls, {mean} in the mean, {} at the most",
            self.calls, self.most
        )
    }
}
