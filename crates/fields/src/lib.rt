// Fields of single records, read where they stand.
#![tactic(auto)]

mod annotation;
mod fault;
mod image;
mod laws;
mod part;

pub use annotation::{Annotation, Processing};
pub use fault::FieldFault;
pub use image::{ImageRecord, Quality};
pub use laws::{one_encoding, worked_cases};
pub use part::Part;
