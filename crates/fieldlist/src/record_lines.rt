// The fields of one record, a line for each.
ghost use Rattle.std.specs.Prelude.{◌≡◌, IfOk, IfSome, string_bytes};
ghost use Rattle.fields.specs.Faults.{told, told_part};
ghost use Rattle.fieldlist.specs.Records.{record_of, field_line, refused_line, annotation_lines, image_lines};
ghost use Rattle.fieldlist.specs.Values.{part_value, value_output};

use super::shown::Quoted;
use super::values::field_value;
use fields::{Annotation, FieldFault, ImageRecord, Part};
use std::alloc::{AllocError, Global};
use std::fmt::Display;

// The record that a body was delivered from: before it the six bytes of identification, with the type, and no number.
// The type is a number, as `records` has its constants.
pub(crate) fn record_of(heap: Global, kind: u8, body: &[u8]) -> Result<Vec<u8>, AllocError>
    ensures { IfOk result (λ v. v.items ≡ record_of kind body.now) }
{
    let mut record = vec![in heap; 0, 0, 0, 0, 0, kind]?;
    record.extend_from_slice(body)?;
    Ok(record)
}

// A record by the name that its lines begin with.
#[derive(Clone, Copy)]
pub(crate) struct Subject<'a> {
    pub(crate) heap: Global,
    pub(crate) name: &'a str,
}

impl Subject<'_> {
    // The line of a field.
    fn line<T: Display + Drop>(
        &self,
        name: &str,
        field: Result<T, FieldFault>,
    ) -> Result<String, AllocError>
        ensures { IfOk result (λ t. IfSome (value_output T.output (told field)) (λ v. string_bytes t ≡ field_line self.now.name.now name.now v)) }
    {
        let value = field_value(self.heap, field)?;
        format!(in self.heap; "{} {name} {value}\n", self.name)
    }

    // The line of a field that is a part of its record.
    fn part_line(&self, name: &str, field: Result<Part, FieldFault>) -> Result<String, AllocError>
        ensures { IfOk result (λ t. string_bytes t ≡ field_line self.now.name.now name.now (part_value (told_part field.entry))) }
    {
        self.line(name, field.map(|part| Quoted(part.bytes)))
    }

    // The line of a record that is refused.
    pub(crate) fn refused(&self, number: u32) -> Result<String, AllocError>
        ensures { IfOk result (λ t. string_bytes t ≡ refused_line self.now.name.now number) }
    {
        format!(in self.heap; "{} REFUSED {number}\n", self.name)
    }

    // The fields of an annotation record.
    pub(crate) fn annotation(&self, record: &[u8]) -> Result<String, AllocError>
        ensures { IfOk result (λ t. string_bytes t ≡ annotation_lines self.now.name.now «record».now) }
    {
        let fields = Annotation::new(record);
        let date = self.part_line("DATE", fields.exposure_date())?;
        let centre = self.part_line("CENTRE", fields.centre())?;
        let path = self.part_line("PATH", fields.path_and_row())?;
        let nominal = self.part_line("NOMINAL", fields.nominal_centre())?;
        let frame = self.part_line("FRAME", fields.frame())?;
        let correction = self.line("CORRECTION", fields.processing())?;
        format!(in self.heap; "{date}{centre}{path}{nominal}{frame}{correction}")
    }

    // The fields of an uncorrected image record of the scanner.
    pub(crate) fn image(&self, record: &[u8]) -> Result<String, AllocError>
        ensures { IfOk result (λ t. string_bytes t ≡ image_lines self.now.name.now «record».now) }
    {
        let fields = ImageRecord::new(record);
        let pixels = self.line("PIXELS", fields.pixel_count())?;
        let quality = self.line("QUALITY", fields.quality())?;
        let gain = self.line("GAIN", fields.gain())?;
        let bias = self.line("BIAS", fields.bias())?;
        format!(in self.heap; "{pixels}{quality}{gain}{bias}")
    }
}
