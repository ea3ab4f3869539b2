// The tape set of a deck or a strip.
ghost use Rattle.std.specs.Prelude.{◌≡◌, IfOk, string_bytes};
ghost use Rattle.listing.specs.Strips.{strip_tape_text};
ghost use Rattle.listing.specs.Tapes.{tape_text};

use super::bands::bands_listing;
use super::lines::{fault_line, set_line};
use super::refusal;
use deck::Deck;
use image::{Image, Strip};
use reader::Reader;
use std::alloc::{AllocError, Global};

// The longest strip of which a tape set is listed, in bytes.
const LONGEST_STRIP: usize = 65536;

// What a deck holds, as a reader finds it: the set and how many lines of each band can be read, or the fault.
pub fn tape<D: Deck + Drop>(heap: Global, deck: D) -> Result<String, AllocError>
    ensures { IfOk result (λ t. string_bytes t ≡ tape_text (D.meaning deck)) }
{
    let mut reader = Reader::new(deck);
    match reader.survey() {
        Ok(outline) => {
            let set = set_line(heap, outline)?;
            let bands = bands_listing(heap, &mut reader, outline.lines)?;
            format!(in heap; "{set}{bands}")
        }
        Err(refusal) => fault_line(heap, refusal),
    }
}

// What these bytes are as a strip: its tape set, its refusal, or `LONG` where there are too many.
pub fn strip_tape(heap: Global, bytes: Vec<u8>) -> Result<String, AllocError>
    ensures { IfOk result (λ t. string_bytes t ≡ strip_tape_text bytes.items) }
{
    if bytes.len() > LONGEST_STRIP {
        return String::from_str(heap, "LONG\n");
    }
    match Strip::open(bytes) {
        Ok(strip) => tape(heap, strip),
        Err(unopened) => refusal(heap, unopened.refusal),
    }
}
