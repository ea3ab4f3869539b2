// The survey of a tape set: whether it obeys the layout of EDIPS scene tapes, and where its records lie.
#![tactic(auto)]

mod fault;
mod reading;
mod worked;

pub use fault::TapeFault;
pub use machine::{Accepted, Group, Place, Places, Summary};
pub use reading::survey;
pub use records::{
    Bands, Cause, Content, Correction, DeckFault, Form, Layout, RecordFault, Sensor, SetFault,
};
pub use worked::worked_values;
