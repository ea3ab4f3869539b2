// Witnesses of whole runs: lists of calls, played to readers.
#![tactic(auto)]

mod calls;
mod twin;

pub use calls::{Answered, Asked, Twins, play};
pub use twin::twins;
