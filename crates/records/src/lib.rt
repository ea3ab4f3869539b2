// Single records of EDIPS scene tapes: the checks that they pass, what directories and headers say, and what can be wrong.
#![tactic(auto)]

mod bands;
mod directory;
mod fault;
mod header;
mod layout;
mod record;

pub use bands::{Bands, MOST_BANDS, present, weight};
pub use directory::{DIRECTORY_LENGTH, first_directory, same_directory};
pub use fault::{Cause, DeckFault, RecordFault, SetFault};
pub use header::{Content, Header, read_header};
pub use layout::{Correction, Form, Layout, Sensor};
pub use record::{ANCILLARY, ANNOTATION, DIRECTORY, HEADER, IMAGE, TRAILER, check};
