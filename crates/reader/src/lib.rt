// The reader: what an archive server asks of a tape set.
#![tactic(auto)]

mod ask;
mod body;
mod call;
mod places;
mod reading;
mod refusal;

pub use call::{Answer, Call, Outline};
pub use places::{BandFile, Spot, band_file, codes, line_spot};
pub use reading::{LONGEST_BODY, Reader};
pub use refusal::{CallerFault, Refusal, Report};
