// The two stored images of a tape set, each a deck.
#![tactic(auto)]

mod chart;
mod cursor;
mod found;
mod indexed;
mod next;
mod opened;
mod refusal;
mod scan;
mod stored;
mod strip;
mod word;

pub use indexed::Indexed;
pub use next::REEL_END;
pub use opened::Image;
pub use refusal::{Cause, Refusal, Unopened};
pub use stored::{BAD, MARK};
pub use strip::Strip;
