// Lines of text to what they ask, and replies to text.
#![tactic(auto)]

ghost use Rattle.script.specs.Back.{ReadsBack};

mod line;
mod read;
mod reply;
mod table;

pub use line::{Line, NotALine};
pub use read::parse;
pub use reply::{Reply, write};

// What is written of a line is read back as that line.
#[tactic(auto, using(crate::proofs::Returns::reads_back))]
pub fn lines_read_back()
    ensures { ReadsBack }
{}
