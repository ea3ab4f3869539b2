// The texts that the programs print.
#![tactic(auto)]

ghost use Rattle.std.specs.Prelude.{◌≡◌, IfOk, string_bytes};
ghost use Rattle.image.specs.Stored.{number};
ghost use Rattle.listing.specs.Blocks.{blocks_text};
ghost use Rattle.listing.specs.Strips.{refusal_text, strip_text};

use deck::Deck;
use image::{Image, Refusal, Strip};
use std::alloc::{AllocError, Global};

mod bands;
mod lines;
mod runs;
mod tapes;

pub use lines::{band_name, fault_line};
use runs::reel_listing;
pub use tapes::{strip_tape, tape};

// The blocks of a deck's reels: for each reel how many there are, and a line for each run of equal ones.
pub fn blocks<D: Deck>(heap: Global, deck: &mut D) -> Result<String, AllocError>
    ensures stays { D.meaning deck.new ≡ D.meaning deck.old }
    ensures text { IfOk result (λ t. string_bytes t ≡ blocks_text (D.meaning deck.old)) }
{
    let mut text = String::new(heap);
    for reel in 1..=deck.reels() {
        let listing = reel_listing(heap, deck, reel)?;
        text.push_str(listing.as_str())?;
    }
    Ok(text)
}

// The line of a refused image: `IMAGE`, the refusal's number and its place.
pub fn refusal(heap: Global, refusal: Refusal) -> Result<String, AllocError>
    ensures { IfOk result (λ t. string_bytes t ≡ refusal_text (number refusal.cause) refusal.offset) }
{
    let number = refusal.cause.number();
    let offset = refusal.offset;
    format!(in heap; "IMAGE {number} {offset}\n")
}

// What these bytes are as a strip: its blocks, or its refusal.
pub fn strip_blocks(heap: Global, bytes: Vec<u8>) -> Result<String, AllocError>
    ensures { IfOk result (λ t. string_bytes t ≡ strip_text bytes.items) }
{
    match Strip::open(bytes) {
        Ok(mut strip) => blocks(heap, &mut strip),
        Err(unopened) => refusal(heap, unopened.refusal),
    }
}
