// The lines of a tape set's listing.
ghost use Rattle.std.specs.Prelude.{◌≡◌, Some, IfOk, string_bytes};
ghost use Rattle.reader.specs.Refusals.{told_refusal};
ghost use Rattle.listing.specs.Tapes.{fault_text, set_text, code_text, band_text};

use reader::{Outline, Refusal, Report};
use std::alloc::{AllocError, Global};
use std::fmt;

// The line of a refused survey. Where the caller is at fault, there is no layer and no place.
pub fn fault_line(heap: Global, refusal: Refusal) -> Result<String, AllocError>
    ensures { IfOk result (λ t. string_bytes t ≡ fault_text (told_refusal refusal)) }
{
    let Report {
        number,
        layer,
        reel,
        block,
    } = refusal.report();
    format!(in heap; "FAULT {number} {layer} {reel} {block}\n")
}

// The line of an accepted set. The tests of a reader print a text of their own, with another word and without a line's end.
pub(crate) fn set_line(heap: Global, outline: Outline) -> Result<String, AllocError>
    ensures { IfOk result (λ t. string_bytes t ≡ set_text outline) }
{
    let Outline {
        sensor,
        mission,
        correction,
        bands,
        lines,
    } = outline;
    format!(in heap; "SET {sensor} {mission} {correction} {bands} {lines}\n")
}

// A band, as texts name it: a vidicon's by its letter, any other by its number.
#[derive(Clone, Copy)]
struct Band(u8);

impl fmt::Display for Band {
    ghost output = { λ b. Some (code_text b.0) };

    fn fmt<W: fmt::Write>(&self, f: &mut fmt::Formatter<W>) -> fmt::Result {
        let code = self.0;
        match code {
            b'A'..=b'D' => {
                let letter = code as char;
                write!(f, "{letter}")
            }
            _ => write!(f, "{code}"),
        }
    }
}

// The name of a band. Any number is answered, so the code is a number and no enum.
pub fn band_name(heap: Global, code: u8) -> Result<String, AllocError>
    ensures { IfOk result (λ t. string_bytes t ≡ code_text code) }
{
    Band(code).to_string(heap)
}

// The line of a band and how many of its lines can be read.
pub(crate) fn band_line(heap: Global, code: u8, readable: u32) -> Result<String, AllocError>
    ensures { IfOk result (λ t. string_bytes t ≡ band_text code readable) }
{
    let band = Band(code);
    format!(in heap; "BAND {band} {readable}\n")
}
