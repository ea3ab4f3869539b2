// The body of a record, from the deck into a caller's buffer.
ghost use Rattle.std.specs.Prelude.{◌≡◌, length};
ghost use Rattle.deck.specs.Answers.{filled};
ghost use Rattle.reader.specs.Bodies.{shown_at, length_of, body_into, told_delivery, buffer_after, told_caller};

use super::places::Spot;
use super::refusal::CallerFault;
use deck::{Deck, Kind, LONGEST_RECORD};
use records::Form;

// The identification of a record, in bytes: the body follows it.
pub(crate) const IDENTIFICATION: usize = 6;

// Here and below the deck and the scratch buffer come apart: a method of `Reader` would also have to say that what is accepted and the tally stay.
// Puts the record at a spot into the scratch buffer and answers its length, if there is a record.
fn record_at<D: Deck>(
    deck: &mut D,
    spot: Option<Spot>,
    scratch: &mut [u8; LONGEST_RECORD],
) -> Option<usize>
    ensures stays { D.meaning deck.new ≡ D.meaning deck.old }
    ensures says { result ≡ length_of (shown_at (D.meaning deck.old) spot) }
    ensures bytes { scratch.new ≡ filled (shown_at (D.meaning deck.old) spot) scratch.old }
{
    let spot = spot?;
    let block = u32::try_from(spot.block).ok()?;
    match deck.fetch(spot.reel, block, scratch).ok()? {
        Some(Kind::Record(length)) => Some(length),
        _ => None,
    }
}

// Puts the body of the record at a spot at the front of the buffer, if it is a record of the form's length.
pub(crate) fn body<D: Deck>(
    deck: &mut D,
    spot: Option<Spot>,
    form: Form,
    scratch: &mut [u8; LONGEST_RECORD],
    buffer: &mut [u8],
) -> Result<usize, CallerFault>
    ensures stays { D.meaning deck.new ≡ D.meaning deck.old }
    ensures says { told_caller result ≡ told_delivery (body_into (D.meaning deck.old) spot form (length buffer.old)) }
    ensures writes { buffer.new ≡ buffer_after (body_into (D.meaning deck.old) spot form (length buffer.old)) buffer.old }
{
    let size = form.record_length();
    // `get_mut` in its place leaves five goals open.
    if buffer.len() < size - IDENTIFICATION {
        return Err(CallerFault::Buffer);
    }
    let length = record_at(deck, spot, scratch).ok_or(CallerFault::Unreadable)?;
    if length != size {
        return Err(CallerFault::Unreadable);
    }
    buffer[..size - IDENTIFICATION].copy_from_slice(&scratch[IDENTIFICATION..size]);
    Ok(size - IDENTIFICATION)
}
