// The records that are shown, from the deck below into a caller's buffer.
ghost use Rattle.std.specs.Prelude.{◌≡◌, ◌-◌, ◌≤◌, true, ◌∷◌, ◌++◌, length, drop, replicate, Some};
ghost use Rattle.deck.specs.Answers.{fetched, filled};
ghost use Rattle.deck.specs.Tape.{look};
ghost use Rattle.deck.specs.Words.{word};
ghost use Rattle.reader.specs.Bodies.{body_of};
ghost use Rattle.turner.specs.Shapes.{plan};
ghost use Rattle.turner.specs.Shown.{bears, readable, borne_at, found, recipe, record_block, source_block, piece_block, shown_kind, there};

use super::piece::Piece;
use super::shape::Turning;
use super::source::{Origin, Source};
use deck::{Deck, Kind, Short};
use machine::Place;
use reader::Spot;

// The record that a body comes from: one of zeros, or one at a place below.
// An Option of a place would make the answer of `find` an Option of an Option.
#[derive(Clone, Copy)]
pub enum Found {
    Blank,
    Borne(Place),
}

// Where a record of some length stands, if the place below bears one.
// `stays` is said by each function that asks a deck, here and below: only a clause can tell that a `&mut` deck means what it meant.
fn borne<D: Deck>(deck: &mut D, spot: Spot, size: usize) -> Option<Place>
    ensures stays { D.meaning deck.new ≡ D.meaning deck.old }
    ensures value { result ≡ borne_at (D.meaning deck.old) size spot }
{
    let Ok(block) = u32::try_from(spot.block) else {
        return None;
    };
    match deck.kind(spot.reel, block) {
        Some(Kind::Record(length)) if length == size => Some(Place {
            reel: spot.reel,
            block,
        }),
        _ => None,
    }
}

// The record of some length that an origin gives, if it gives one.
fn find<D: Deck>(deck: &mut D, origin: Origin, size: usize) -> Option<Found>
    ensures stays { D.meaning deck.new ≡ D.meaning deck.old }
    ensures value { result ≡ found (D.meaning deck.old) size origin }
{
    match origin {
        Origin::Zero => Some(Found::Blank),
        Origin::Below(spot) => Some(Found::Borne(borne(deck, spot, size)?)),
        Origin::Nowhere => None,
    }
}

// What kind of block a source gives: one that the tape below does not bear is bad.
pub(crate) fn kind_from<D: Deck>(deck: &mut D, source: Option<Source>) -> Kind<usize>
    ensures stays { D.meaning deck.new ≡ D.meaning deck.old }
    ensures value { result ≡ shown_kind (D.meaning deck.old) (recipe source) }
{
    let Some(source) = source else {
        return Kind::Mark;
    };
    match find(deck, source.origin, source.size) {
        Some(_) => Kind::Record(source.size),
        None => Kind::Bad,
    }
}

// Writes the six identification bytes of a record: its number, a zero and its type.
fn identify(buffer: &mut [u8], number: u32, kind: u8)
    requires { 6 ≤ length buffer.old }
    ensures { buffer.new ≡ word number ++ 0 ∷ kind ∷ drop 6 buffer.old }
{
    buffer[..4].copy_from_slice(&number.to_be_bytes());
    buffer[4] = 0;
    buffer[5] = kind;
}

// Writes the body of a band that is not present.
fn blank(body: &mut [u8])
    ensures { body.new ≡ replicate (length body.old) 0 }
{
    for byte in body.iter_mut() {
        *byte = 0;
    }
}

// Puts a record whose body is zero at the front of the buffer.
// `value` and `bytes` are a pair here and below as in `Deck::fetch`: with one definition for both, a proof would take it apart again.
fn zero_record(source: Source, buffer: &mut [u8]) -> Result<Kind<usize>, Short>
    ensures value { there result ≡ fetched (Some (record_block (λ body. body) source.kind source.number (Some (replicate (source.size - 6) 0)))) (length buffer.old) }
    ensures bytes { buffer.new ≡ filled (Some (record_block (λ body. body) source.kind source.number (Some (replicate (source.size - 6) 0)))) buffer.old }
{
    let size = source.size;
    if buffer.len() < size {
        return Err(Short);
    }
    identify(buffer, source.number, source.kind);
    blank(&mut buffer[6..size]);
    Ok(Kind::Record(size))
}

// Puts the record that stands at a place at the front of the buffer, with six bytes of its own.
fn copied_record<D: Deck>(
    deck: &mut D,
    at: Place,
    source: Source,
    buffer: &mut [u8],
) -> Result<Kind<usize>, Short>
    requires { bears (body_of source.size (look (D.meaning deck.old) at.reel at.block)) ≡ true }
    ensures stays { D.meaning deck.new ≡ D.meaning deck.old }
    ensures value { there result ≡ fetched (Some (record_block (λ body. body) source.kind source.number (readable (body_of source.size (look (D.meaning deck.old) at.reel at.block))))) (length buffer.old) }
    ensures bytes { buffer.new ≡ filled (Some (record_block (λ body. body) source.kind source.number (readable (body_of source.size (look (D.meaning deck.old) at.reel at.block))))) buffer.old }
{
    if buffer.len() < source.size {
        return Err(Short);
    }
    let _ = deck.fetch(at.reel, at.block, buffer);
    identify(buffer, source.number, source.kind);
    Ok(Kind::Record(source.size))
}

// Puts the record of a source at the front of the buffer, where the buffer takes it.
fn fetch_from<D: Deck>(
    deck: &mut D,
    source: Option<Source>,
    buffer: &mut [u8],
) -> Result<Kind<usize>, Short>
    ensures stays { D.meaning deck.new ≡ D.meaning deck.old }
    ensures value { there result ≡ fetched (Some (source_block (λ body. body) (D.meaning deck.old) (recipe source))) (length buffer.old) }
    ensures bytes { buffer.new ≡ filled (Some (source_block (λ body. body) (D.meaning deck.old) (recipe source))) buffer.old }
{
    let Some(source) = source else {
        return Ok(Kind::Mark);
    };
    match find(deck, source.origin, source.size) {
        Some(Found::Blank) => zero_record(source, buffer),
        Some(Found::Borne(at)) => copied_record(deck, at, source, buffer),
        None => Ok(Kind::Bad),
    }
}

impl Turning {
    // Puts the record of a piece at the front of the buffer, where the buffer takes it, and changes its body.
    pub(crate) fn deliver<D: Deck>(
        &self,
        deck: &mut D,
        piece: Piece,
        buffer: &mut [u8],
    ) -> Result<Kind<usize>, Short>
        ensures stays { D.meaning deck.new ≡ D.meaning deck.old }
        ensures value { there result ≡ fetched (Some (piece_block (plan self.now) (D.meaning deck.old) piece)) (length buffer.old) }
        ensures bytes { buffer.new ≡ filled (Some (piece_block (plan self.now) (D.meaning deck.old) piece)) buffer.old }
    {
        let kind = fetch_from(deck, self.source_of(piece), buffer)?;
        if let Kind::Record(size) = kind {
            self.change(piece, &mut buffer[6..size]);
        }
        Ok(kind)
    }
}
