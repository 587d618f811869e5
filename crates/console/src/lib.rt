// A script is read line by line, each call is served, and the replies are written.
#![tactic(auto)]

mod engine;
mod limits;
mod reading;
mod turns;

pub use engine::Engine;
pub use limits::ASKS;
pub use reading::{play, run};
pub use turns::{ask, close, open, reply};
