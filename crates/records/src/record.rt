// The checks that every record passes before its body is looked at.
ghost use Rattle.std.specs.Prelude.{◌≡◌, length, OnOk, slice_index};
ghost use Rattle.records.specs.Records.{has_number, checked, recorded};

use super::fault::RecordFault;

// The types of records, by their sixth byte. They are no enum: `check` takes any byte for a type, and may ask no more of its callers.
pub const DIRECTORY: u8 = 0o011;

pub const HEADER: u8 = 0o022;

pub const ANCILLARY: u8 = 0o044;

pub const ANNOTATION: u8 = 0o333;

pub const IMAGE: u8 = 0o355;

pub const TRAILER: u8 = 0o366;

// The byte at an index, or 0 behind a record's end.
pub(crate) fn byte_at(bytes: &[u8], index: usize) -> u8
    ensures { result ≡ slice_index bytes.now index }
{
    bytes.get(index).copied().unwrap_or(0)
}

// Whether a record begins with its number, in four bytes. They are read one by one, since those behind a short record's end count as 0.
fn numbered(bytes: &[u8], number: u64) -> bool
    ensures { result ≡ has_number bytes.now number }
{
    let [_, _, _, _, a, b, c, d] = number.to_be_bytes();
    byte_at(bytes, 0) == a
        && byte_at(bytes, 1) == b
        && byte_at(bytes, 2) == c
        && byte_at(bytes, 3) == d
}

// A record's length, fifth byte, type and number, in that order.
#[tactic(auto, using(std::proofs::lemmas::Bool::Decides::nat_tests), unfolding(crate::specs::Records::checked))]
pub fn check(bytes: &[u8], size: usize, kind: u8, number: u64) -> Result<(), RecordFault>
    ensures says { recorded result ≡ checked bytes.now size kind number }
    ensures long { OnOk result (length bytes.now ≡ size) }
{
    if bytes.len() != size {
        return Err(RecordFault::Length);
    }
    if byte_at(bytes, 4) != 0 {
        return Err(RecordFault::FifthByte);
    }
    if byte_at(bytes, 5) != kind {
        return Err(RecordFault::Type);
    }
    if !numbered(bytes, number) {
        return Err(RecordFault::Number);
    }
    Ok(())
}
