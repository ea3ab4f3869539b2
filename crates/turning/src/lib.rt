// Sets as strips: the strip of any deck's set, and the strip of the turned set of a strip.
#![tactic(auto)]

mod turned;
mod writing;

pub use turned::{TurnError, strip_turned};
pub use writing::strip_bytes;
