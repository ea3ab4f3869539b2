// Annotation records.
ghost use Rattle.std.specs.Prelude.{◌≡◌, ◌+◌, ◌≤◌, Some};
ghost use Rattle.fields.specs.Annotations.{is_annotation, field, exposure_date, centre, path_and_row, nominal_centre, frame, processing_by, letter, processing};
ghost use Rattle.fields.specs.Faults.{told, told_part};

use super::fault::FieldFault;
use super::part::{Part, checked};
use records::ANNOTATION;
use std::fmt;

// How a picture was corrected.
#[derive(Clone, Copy, PartialEq, Eq, Debug)]
pub enum Processing {
    Uncorrected,
    System,
    Geometric,
    Relative,
}

// From the letter in byte 82.
impl TryFrom<char> for Processing {
    type Error = FieldFault;

    ghost try_from_gives = { λ letter r. told r ≡ processing_by letter };

    fn try_from(letter: char) -> Result<Processing, FieldFault> {
        match letter {
            'U' => Ok(Processing::Uncorrected),
            'S' => Ok(Processing::System),
            'G' => Ok(Processing::Geometric),
            'R' => Ok(Processing::Relative),
            _ => Err(FieldFault::Code),
        }
    }
}

impl fmt::Display for Processing {
    ghost output = { λ p. Some (letter p) };

    fn fmt<W: fmt::Write>(&self, f: &mut fmt::Formatter<W>) -> fmt::Result {
        f.write_str(match self {
            Processing::Uncorrected => "U",
            Processing::System => "S",
            Processing::Geometric => "G",
            Processing::Relative => "R",
        })
    }
}

// An annotation record, or what is taken for one. It is not one generic struct with `ImageRecord`: a marker type and a trait for the check would be
// longer than the two lines that both share. No model: a model and `Copy` do not go together, so each clause names the record.
#[derive(Clone, Copy)]
pub struct Annotation<'a> {
    record: &'a [u8],
}

// The lengths stand as numbers: by `Form` they would name two forms of sets, where either instrument's records will do.
fn is_annotation(record: &[u8]) -> bool
    ensures { result ≡ is_annotation «record».now }
{
    (record.len() == 3596 || record.len() == 5388) && record[5] == ANNOTATION
}

impl<'a> Annotation<'a> {
    pub fn new(record: &'a [u8]) -> Annotation<'a>
        ensures { result.«record».now ≡ «record».now }
    {
        Annotation { record }
    }

    // So many bytes from the first on.
    fn field(&self, first: usize, count: usize) -> Result<Part<'a>, FieldFault>
        requires { (1 ≤ first) × (first + count ≤ 3597) }
        ensures { told_part result ≡ field self.now.«record».now first count }
    {
        let record = checked(is_annotation(self.record), self.record)?;
        Ok(Part::of(record, first, count))
    }

    pub fn exposure_date(&self) -> Result<Part<'a>, FieldFault>
        ensures { told_part result ≡ exposure_date self.now.«record».now }
    {
        self.field(7, 8)
    }

    pub fn centre(&self) -> Result<Part<'a>, FieldFault>
        ensures { told_part result ≡ centre self.now.«record».now }
    {
        self.field(15, 17)
    }

    pub fn path_and_row(&self) -> Result<Part<'a>, FieldFault>
        ensures { told_part result ≡ path_and_row self.now.«record».now }
    {
        self.field(32, 9)
    }

    pub fn nominal_centre(&self) -> Result<Part<'a>, FieldFault>
        ensures { told_part result ≡ nominal_centre self.now.«record».now }
    {
        self.field(41, 17)
    }

    pub fn frame(&self) -> Result<Part<'a>, FieldFault>
        ensures { told_part result ≡ frame self.now.«record».now }
    {
        self.field(107, 15)
    }

    // How the picture was corrected, by byte 82.
    pub fn processing(&self) -> Result<Processing, FieldFault>
        ensures { told result ≡ processing self.now.«record».now }
    {
        let record = checked(is_annotation(self.record), self.record)?;
        Processing::try_from(char::from(record[81]))
    }
}
