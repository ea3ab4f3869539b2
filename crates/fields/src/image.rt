// Image records of the scanner, uncorrected.
ghost use Rattle.std.specs.Prelude.{◌≡◌, ◌+◌, ◌≤◌, Some};
ghost use Rattle.fields.specs.Faults.{told, told_part};
ghost use Rattle.fields.specs.Images.{is_image, count_by, pixel_count, quality_by, quality_text, quality, signed_by, signed_at, gain, bias, first_pixel, pixels};

use super::fault::FieldFault;
use super::part::{Part, checked};
use records::IMAGE;
use std::fmt;

// The quality of a line.
#[derive(Clone, Copy, PartialEq, Eq, Debug)]
pub enum Quality {
    Q0,
    Q1,
    Q2,
    Q3,
}

// From the code in byte 3563.
impl TryFrom<u8> for Quality {
    type Error = FieldFault;

    ghost try_from_gives = { λ code r. told r ≡ quality_by code };

    fn try_from(code: u8) -> Result<Quality, FieldFault> {
        match code {
            0o000 => Ok(Quality::Q0),
            0o077 => Ok(Quality::Q1),
            0o007 => Ok(Quality::Q2),
            0o070 => Ok(Quality::Q3),
            _ => Err(FieldFault::Code),
        }
    }
}

impl fmt::Display for Quality {
    ghost output = { λ q. Some (quality_text q) };

    fn fmt<W: fmt::Write>(&self, f: &mut fmt::Formatter<W>) -> fmt::Result {
        f.write_str(match self {
            Quality::Q0 => "Q0",
            Quality::Q1 => "Q1",
            Quality::Q2 => "Q2",
            Quality::Q3 => "Q3",
        })
    }
}

// An image record, or what is taken for one.
#[derive(Clone, Copy)]
pub struct ImageRecord<'a> {
    record: &'a [u8],
}

// The length stands as a number: by `Form` it would name one form of sets, where two have it.
fn is_image(record: &[u8]) -> bool
    ensures { result ≡ is_image «record».now }
{
    record.len() == 3596 && record[5] == IMAGE
}

// A number of two bytes with six bits each.
fn count_by(high: u8, low: u8) -> Result<u16, FieldFault>
    ensures { told result ≡ count_by high low }
{
    if high < 64 && low < 64 {
        Ok(u16::from(high) * 64 + u16::from(low))
    } else {
        Err(FieldFault::Code)
    }
}

// A signed number of four bytes with four bits each.
fn signed_by(a: u8, b: u8, c: u8, d: u8) -> Result<i16, FieldFault>
    ensures { told result ≡ signed_by a b c d }
{
    if a < 16 && b < 16 && c < 16 && d < 16 {
        Ok(i16::from_be_bytes([a * 16 + b, c * 16 + d]))
    } else {
        Err(FieldFault::Code)
    }
}

// The byte at which the pixels of a band begin: before them lie 12 bytes and the fill. Here and in `pixels` the band is a number, since each is
// answered: 42 where the scanner has no such band.
fn first_pixel(band: u8) -> Result<usize, FieldFault>
    ensures { told result ≡ first_pixel band }
{
    match band {
        4 => Ok(13 + 75),
        5 => Ok(13 + 73),
        6 => Ok(13 + 71),
        7 => Ok(13 + 69),
        8 => Ok(13),
        _ => Err(FieldFault::Band),
    }
}

impl<'a> ImageRecord<'a> {
    pub fn new(record: &'a [u8]) -> ImageRecord<'a>
        ensures { result.«record».now ≡ «record».now }
    {
        ImageRecord { record }
    }

    // How many pixels the line has, by bytes 3561 and 3562.
    pub fn pixel_count(&self) -> Result<u16, FieldFault>
        ensures { told result ≡ pixel_count self.now.«record».now }
    {
        let record = checked(is_image(self.record), self.record)?;
        count_by(record[3560], record[3561])
    }

    // The line's quality, by byte 3563.
    pub fn quality(&self) -> Result<Quality, FieldFault>
        ensures { told result ≡ quality self.now.«record».now }
    {
        let record = checked(is_image(self.record), self.record)?;
        Quality::try_from(record[3562])
    }

    // The signed number whose first byte is that of a number.
    fn signed_at(&self, first: usize) -> Result<i16, FieldFault>
        requires { (1 ≤ first) × (first + 3 ≤ 3596) }
        ensures { told result ≡ signed_at self.now.«record».now first }
    {
        let record = checked(is_image(self.record), self.record)?;
        signed_by(
            record[first - 1],
            record[first],
            record[first + 1],
            record[first + 2],
        )
    }

    // Bytes 3577 to 3580.
    pub fn gain(&self) -> Result<i16, FieldFault>
        ensures { told result ≡ gain self.now.«record».now }
    {
        self.signed_at(3577)
    }

    // Bytes 3581 to 3584.
    pub fn bias(&self) -> Result<i16, FieldFault>
        ensures { told result ≡ bias self.now.«record».now }
    {
        self.signed_at(3581)
    }

    // The pixels of the line, where it is one of a band. They end by byte 3560.
    pub fn pixels(&self, band: u8) -> Result<Part<'a>, FieldFault>
        ensures { told_part result ≡ pixels self.now.«record».now band }
    {
        let record = checked(is_image(self.record), self.record)?;
        let first = first_pixel(band)?;
        let count = usize::from(count_by(record[3560], record[3561])?);
        if first + count > 3561 {
            return Err(FieldFault::Code);
        }
        Ok(Part::of(record, first, count))
    }
}
