// The calls of a reader, and what they answer.
ghost use Rattle.std.specs.Prelude.{◌≡◌, ◌≤◌};
ghost use Rattle.reader.specs.Bodies.{outline};

use super::places::codes;
use machine::Accepted;
use records::{Correction, Sensor};

// What a survey answers of an accepted set.
#[derive(Clone, Copy, PartialEq, Eq, Debug)]
pub struct Outline {
    pub sensor: Sensor,
    // a number, as `Layout` has it: the field is public
    pub mission: u8,
    pub correction: Correction,
    // how many bands are present
    pub bands: usize,
    // how many lines each has
    pub lines: u32,
}

impl From<Accepted> for Outline {
    ghost from_gives = { λ a o. (o ≡ outline a) × (o.bands ≤ 5) };

    fn from(accepted: Accepted) -> Outline {
        let summary = accepted.summary;
        Outline {
            sensor: summary.layout.form.sensor(),
            mission: summary.layout.mission,
            correction: summary.layout.correction,
            bands: codes(&summary.bands).len(),
            lines: summary.lines,
        }
    }
}

// A call, with its arguments. Band codes are 4 to 8 or a vidicon's letter, sheet kinds 1 to 4; k, lines and indexes count from 1.
// The variants are public and take numbers, since each number is answered; a type of fewer values would ask more of callers.
#[derive(Clone, Copy, PartialEq, Eq, Debug)]
pub enum Call {
    Survey,
    Band(u32),
    Ident,
    Line(u8, u32),
    Sheet(u8, u8, u32),
    Tally,
}

// What a call answers where it is not refused.
#[derive(Clone, Copy, PartialEq, Eq, Debug)]
pub enum Answer {
    Outline(Outline),
    Code(u8),
    Delivered(usize),
    Tally(u64),
}
