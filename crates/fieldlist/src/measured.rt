// The fields of one line.
ghost use Rattle.std.specs.Prelude.{◌≡◌, IfOk, string_bytes};
ghost use Rattle.fieldlist.specs.Measured.{measured, line_name, line_text, wanted_text};

use super::list::FieldList;
use super::record_lines::{Subject, record_of};
use deck::Deck;
use fields::FieldFault;
use listing::band_name;
use reader::{LONGEST_BODY, Outline};
use records::{Correction, IMAGE, Sensor};
use std::alloc::{AllocError, Global};

// A line of a band, by the band's code and the line's number. They are public fields that callers set: each number is answered.
#[derive(Clone, Copy, PartialEq, Eq, Debug)]
pub struct Wanted {
    pub band: u8,
    pub line: u32,
}

// Whether the lines of a set have such fields.
fn is_measured(sensor: Sensor, correction: Correction) -> bool
    ensures { result ≡ measured sensor correction }
{
    matches!((sensor, correction), (Sensor::Mss, Correction::Uncorrected))
}

// How a line of a band is called.
fn line_name(heap: Global, code: u8, line: u32) -> Result<String, AllocError>
    ensures { IfOk result (λ t. string_bytes t ≡ line_name code line) }
{
    let band = band_name(heap, code)?;
    format!(in heap; "LINE {band} {line}")
}

impl<D: Deck> FieldList<D> {
    // The fields of a line of a set that has this outline.
    fn line(&mut self, outline: Outline, wanted: Wanted) -> Result<String, AllocError>
        ensures { IfOk result (λ t. string_bytes t ≡ line_text self.old.set self.old.accepted outline wanted) }
    {
        let heap = self.heap;
        let name = line_name(heap, wanted.band, wanted.line)?;
        let subject = Subject {
            heap,
            name: name.as_str(),
        };
        let mut body = [0; LONGEST_BODY];
        match self.reader.line(wanted.band, wanted.line, &mut body) {
            Ok(length) => {
                if !is_measured(outline.sensor, outline.correction) {
                    return subject.refused(FieldFault::Record.number());
                }
                let record = record_of(heap, IMAGE, &body[..length])?;
                subject.image(record.as_slice())
            }
            Err(refusal) => subject.refused(refusal.report().number),
        }
    }

    // The fields of the line that is wanted, if one is.
    pub(crate) fn wanted_line(
        &mut self,
        outline: Outline,
        wanted: Option<Wanted>,
    ) -> Result<String, AllocError>
        ensures { IfOk result (λ t. string_bytes t ≡ wanted_text self.old.set self.old.accepted outline wanted) }
    {
        match wanted {
            Some(wanted) => self.line(outline, wanted),
            None => Ok(String::new(self.heap)),
        }
    }
}
