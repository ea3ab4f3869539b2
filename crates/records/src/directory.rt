// A reel's first record, its directory.
ghost use Rattle.std.specs.Prelude.{◌≡◌, ok_or};
ghost use Rattle.records.specs.declared.fault.SetFault.TheVariants.{Directory};
ghost use Rattle.records.specs.Directories.{form_of, mission_of, correction_of, allowed, layout_of, blank, fixed, first_directory, same_directory};

use super::fault::SetFault;
use super::layout::{Correction, Form, Layout};

// The length of a directory.
pub const DIRECTORY_LENGTH: usize = 360;

// The form by the sensor's letter and the order's byte. It is no `TryFrom`, since two bytes make a form.
fn form_of(letter: u8, order: u8) -> Option<Form>
    ensures { result ≡ form_of letter order }
{
    match (letter, order) {
        (b'M', 255) => Some(Form::Interleaved),
        (b'M', 0) => Some(Form::Sequential),
        (b'R', 0) => Some(Form::Vidicon),
        _ => None,
    }
}

// The mission by its digit. It is no `TryFrom`, since a `u8` comes out of it, no type of its own.
fn mission_of(digit: u8) -> Option<u8>
    ensures { result ≡ mission_of digit }
{
    match digit {
        b'1'..=b'3' => Some(digit - b'0'),
        _ => None,
    }
}

// The correction by its second letter. No caller reads the error: `first_directory` tells no cause.
impl TryFrom<u8> for Correction {
    type Error = SetFault;

    ghost try_from_gives = { λ letter r. r ≡ ok_or (correction_of letter) Directory };

    fn try_from(letter: u8) -> Result<Self, SetFault> {
        match letter {
            b'P' => Ok(Correction::Corrected),
            b'A' => Ok(Correction::Uncorrected),
            _ => Err(SetFault::Directory),
        }
    }
}

// A vidicon set is of mission 3.
fn allowed(form: Form, mission: u8) -> bool
    ensures { result ≡ allowed form mission }
{
    match form {
        Form::Interleaved | Form::Sequential => true,
        Form::Vidicon => mission == 3,
    }
}

// The layout that a directory names, if it names one.
fn layout_of(bytes: &[u8; DIRECTORY_LENGTH]) -> Option<Layout>
    ensures { result ≡ layout_of bytes.now }
{
    let layout = Layout {
        form: form_of(bytes[8], bytes[30])?,
        mission: mission_of(bytes[7])?,
        correction: Correction::try_from(bytes[10]).ok()?,
    };
    allowed(layout.form, layout.mission).then_some(layout)
}

// Whether the bytes between the digits and the record type are blanks.
fn blank(bytes: &[u8; DIRECTORY_LENGTH]) -> bool
    ensures { result ≡ blank bytes.now }
{
    bytes[20..26].iter().all(|byte| *byte == b' ')
}

// The values that a first directory has besides those by which it names its layout.
fn fixed(bytes: &[u8; DIRECTORY_LENGTH], layout: Layout, reels: u32) -> bool
    ensures { result ≡ fixed bytes.now layout reels }
{
    let size = usize::from(u16::from_be_bytes([bytes[31], bytes[32]]));
    bytes[6] == b'L'
        && bytes[9] == b'C'
        && bytes[18] == b'1'
        && u64::from(bytes[19]) == u64::from(b'0') + u64::from(reels)
        && blank(bytes)
        && bytes[29] == 0o355
        && size == layout.form.record_length()
}

// The layout that the first directory of a set names, if all its values are in order.
// An Option, since it is public: its caller names the one fault that it can be.
#[tactic(auto, unfolding(crate::specs::Directories::first_directory))]
pub fn first_directory(bytes: &[u8; DIRECTORY_LENGTH], reels: u32) -> Option<Layout>
    ensures { result ≡ first_directory bytes.now reels }
{
    layout_of(bytes).filter(|layout| fixed(bytes, *layout, reels))
}

// Whether a directory equals the first one in all but its reel's digit.
#[tactic(auto, using(crate::proofs::Directories::rest), unfolding(crate::specs::Directories::same_directory))]
pub fn same_directory(first: &[u8; DIRECTORY_LENGTH], bytes: &[u8; DIRECTORY_LENGTH]) -> bool
    ensures { result ≡ same_directory first.now bytes.now }
{
    first[0..18] == bytes[0..18] && first[19..360] == bytes[19..360]
}
