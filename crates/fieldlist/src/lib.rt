// The fields of a tape set's records, as text.
#![tactic(auto)]

mod laws;
mod list;
mod measured;
mod record_lines;
mod sheets;
mod shown;
mod tapes;
mod values;

pub use laws::{same_fields, told_apart};
pub use measured::Wanted;
pub use tapes::{strip_fields, tape_fields};
