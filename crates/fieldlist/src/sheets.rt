// The annotation records of the bands present.
ghost use Rattle.std.specs.Prelude.{◌≡◌, IfOk, string_bytes};
ghost use Rattle.listing.specs.Tapes.{each, present};
ghost use Rattle.fieldlist.specs.Sheets.{annotation_name, annotation, annotations_to};

use super::list::FieldList;
use super::record_lines::{Subject, record_of};
use deck::Deck;
use listing::band_name;
use reader::{LONGEST_BODY, codes};
use records::ANNOTATION;
use std::alloc::{AllocError, Global};

// The kind of annotation records among the sheets: a number, as the reader's `sheet` takes one, since each number is answered.
const ANNOTATION_SHEET: u8 = 3;

// How an annotation record is called.
fn annotation_name(heap: Global, code: u8, index: u32) -> Result<String, AllocError>
    ensures { IfOk result (λ t. string_bytes t ≡ annotation_name code index) }
{
    let band = band_name(heap, code)?;
    format!(in heap; "ANNOTATION {band} {index}")
}

impl<D: Deck> FieldList<D> {
    // An annotation record of a band.
    fn annotation(&mut self, code: u8, index: u32) -> Result<String, AllocError>
        ensures stays { self.new ≡ self.old }
        ensures text { IfOk result (λ t. string_bytes t ≡ annotation self.old.set self.old.accepted code index) }
    {
        let heap = self.heap;
        let name = annotation_name(heap, code, index)?;
        let subject = Subject {
            heap,
            name: name.as_str(),
        };
        let mut body = [0; LONGEST_BODY];
        match self.reader.sheet(code, ANNOTATION_SHEET, index, &mut body) {
            Ok(length) => {
                let record = record_of(heap, ANNOTATION, &body[..length])?;
                subject.annotation(record.as_slice())
            }
            Err(refusal) => subject.refused(refusal.report().number),
        }
    }

    // So many annotation records of a band.
    fn band_annotations(&mut self, code: u8, count: u32) -> Result<String, AllocError>
        ensures stays { self.new ≡ self.old }
        ensures text { IfOk result (λ t. string_bytes t ≡ annotations_to self.old.set self.old.accepted count code) }
    {
        let mut text = String::new(self.heap);
        for index in 1..=count {
            let lines = self.annotation(code, index)?;
            text.push_str(lines.as_str())?;
        }
        Ok(text)
    }

    // So many annotation records of each band present.
    pub(crate) fn annotations(&mut self, count: u32) -> Result<String, AllocError>
        ensures stays { self.new ≡ self.old }
        ensures text { IfOk result (λ t. string_bytes t ≡ each (annotations_to self.old.set self.old.accepted count) (present self.old.accepted)) }
    {
        let mut text = String::new(self.heap);
        let bands = self.reader.bands();
        for code in codes(&bands) {
            let lines = self.band_annotations(*code, count)?;
            text.push_str(lines.as_str())?;
        }
        Ok(text)
    }
}
