// What the first directory says of a set: which layout it follows.
ghost use Rattle.std.specs.Prelude.{◌≡◌, Some};
ghost use Rattle.records.specs.Layouts.{sensor_text, correction_text, sensor_in, record_length, order_byte, ancillaries, annotations, attributes, stride};

use std::fmt;

// The instrument: the multispectral scanner or the return beam vidicon.
#[derive(Clone, Copy, PartialEq, Eq, Debug)]
pub enum Sensor {
    Mss,
    Rbv,
}

// The letter by which a directory names the instrument.
impl fmt::Display for Sensor {
    ghost output = { λ s. Some (sensor_text s) };

    fn fmt<W: fmt::Write>(&self, f: &mut fmt::Formatter<W>) -> fmt::Result {
        match self {
            Sensor::Mss => f.write_str("M"),
            Sensor::Rbv => f.write_str("R"),
        }
    }
}

// Whose lines a set holds, and in which order: the scanner's with the bands interleaved line by line, the scanner's band after band, or
// the vidicon's, of which a set has one band.
#[derive(Clone, Copy, PartialEq, Eq, Debug)]
pub enum Form {
    Interleaved,
    Sequential,
    Vidicon,
}

#[derive(Clone, Copy, PartialEq, Eq, Debug)]
pub enum Correction {
    Corrected,
    Uncorrected,
}

impl Correction {
    // How many annotation records follow the ancillary records.
    pub fn annotations(self) -> u32
        ensures { result ≡ annotations self }
    {
        match self {
            Correction::Corrected => 1,
            Correction::Uncorrected => 2,
        }
    }
}

// The two letters by which a directory names the correction.
impl fmt::Display for Correction {
    ghost output = { λ c. Some (correction_text c) };

    fn fmt<W: fmt::Write>(&self, f: &mut fmt::Formatter<W>) -> fmt::Result {
        match self {
            Correction::Corrected => f.write_str("CP"),
            Correction::Uncorrected => f.write_str("CA"),
        }
    }
}

#[derive(Clone, Copy, PartialEq, Eq, Debug)]
pub struct Layout {
    pub form: Form,
    // 1 to 3 where a directory names it; any number, since callers may make a layout
    pub mission: u8,
    pub correction: Correction,
}

impl Form {
    pub fn sensor(self) -> Sensor
        ensures { result ≡ sensor_in self }
    {
        match self {
            Form::Interleaved | Form::Sequential => Sensor::Mss,
            Form::Vidicon => Sensor::Rbv,
        }
    }

    // The length of every record but a directory.
    pub fn record_length(self) -> usize
        ensures { result ≡ record_length self }
    {
        match self {
            Form::Interleaved | Form::Sequential => 3596,
            Form::Vidicon => 5388,
        }
    }

    // The byte by which directory and header tell the order of lines.
    pub(crate) fn order_byte(self) -> u8
        ensures { result ≡ order_byte self }
    {
        match self {
            Form::Interleaved => 255,
            Form::Sequential | Form::Vidicon => 0,
        }
    }
}

impl Layout {
    // How many ancillary records follow a header.
    pub fn ancillaries(self) -> u32
        ensures { result ≡ ancillaries self }
    {
        match (self.correction, self.form.sensor()) {
            (Correction::Corrected, _) => 0,
            (Correction::Uncorrected, Sensor::Mss) => 26,
            (Correction::Uncorrected, Sensor::Rbv) => 30,
        }
    }

    // How many annotation records follow these.
    pub fn annotations(self) -> u32
        ensures { result ≡ annotations self.correction }
    {
        self.correction.annotations()
    }

    // How many records an attributes file has: the header and these.
    pub fn attributes(self) -> u32
        ensures { result ≡ attributes self }
    {
        1 + self.ancillaries() + self.annotations()
    }

    // How many bands the mission's scanner has, present or not: a set interleaved by line has a record for each.
    pub fn stride(self) -> u32
        ensures { result ≡ stride self }
    {
        if self.mission == 3 { 5 } else { 4 }
    }
}
