// The fields of a deck's or a strip's tape set.
ghost use Rattle.std.specs.Prelude.{◌≡◌, IfOk, string_bytes};
ghost use Rattle.fieldlist.specs.Tapes.{tape_text, strip_text};

use super::list::FieldList;
use super::measured::Wanted;
use deck::Deck;
use image::{Image, Strip};
use listing::{fault_line, refusal};
use reader::Reader;
use std::alloc::{AllocError, Global};

// The longest strip that is read, in bytes. Any strip of an uncorrected set has over a hundred thousand, by its many ancillary records.
const LONGEST_STRIP: usize = 1048576;

// The fields of what a deck holds: of each annotation record, and of the line that is wanted. Or the fault. `listing::tape` tells a set by another
// text: the two share the survey alone.
pub fn tape_fields<D: Deck + Drop>(
    heap: Global,
    deck: D,
    wanted: Option<Wanted>,
) -> Result<String, AllocError>
    ensures { IfOk result (λ t. string_bytes t ≡ tape_text (D.meaning deck) wanted) }
{
    let mut reader = Reader::new(deck);
    match reader.survey() {
        Ok(outline) => {
            let mut list = FieldList { heap, reader };
            let annotations = list.annotations(outline.correction.annotations())?;
            let line = list.wanted_line(outline, wanted)?;
            format!(in heap; "{annotations}{line}")
        }
        Err(refusal) => fault_line(heap, refusal),
    }
}

// The fields of these bytes as a strip, their refusal, or `LONG` where there are too many. One function for this and
// `listing::strip_tape` would take a closure, and have to require that it may be called.
pub fn strip_fields(
    heap: Global,
    bytes: Vec<u8>,
    wanted: Option<Wanted>,
) -> Result<String, AllocError>
    ensures { IfOk result (λ t. string_bytes t ≡ strip_text bytes.items wanted) }
{
    if bytes.len() > LONGEST_STRIP {
        return String::from_str(heap, "LONG\n");
    }
    match Strip::open(bytes) {
        Ok(strip) => tape_fields(heap, strip, wanted),
        Err(unopened) => refusal(heap, unopened.refusal),
    }
}
