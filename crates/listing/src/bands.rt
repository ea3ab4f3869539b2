// The bands of an accepted set, and their readable lines.
ghost use Rattle.std.specs.Prelude.{◌≡◌, IfOk, string_bytes};
ghost use Rattle.listing.specs.Tapes.{readable, bands_text, present};

use super::lines::band_line;
use deck::Deck;
use reader::{LONGEST_BODY, Reader, codes};
use std::alloc::{AllocError, Global};

// How many of the lines of a band, from line 1 on, the reader delivers. What `stays` and `remembers` say is of this call alone.
fn readable<D: Deck>(reader: &mut Reader<D>, code: u8, lines: u32) -> u32
    ensures stays { D.meaning reader.new.deck ≡ D.meaning reader.old.deck }
    ensures remembers { reader.new.accepted ≡ reader.old.accepted }
    ensures value { result ≡ readable (D.meaning reader.old.deck) reader.old.accepted code lines }
{
    let mut buffer = [0; LONGEST_BODY];
    let mut count = 0;
    // a loop, since the closure of a `filter` and `count` would change the reader and the buffer
    for line in 1..=lines {
        if reader.line(code, line, &mut buffer).is_ok() {
            count += 1;
        }
    }
    count
}

// The lines of the bands present.
pub(crate) fn bands_listing<D: Deck>(
    heap: Global,
    reader: &mut Reader<D>,
    lines: u32,
) -> Result<String, AllocError>
    ensures { IfOk result (λ t. string_bytes t ≡ bands_text (D.meaning reader.old.deck) reader.old.accepted lines (present reader.old.accepted)) }
{
    let mut text = String::new(heap);
    let bands = reader.bands();
    for code in codes(&bands) {
        let line = band_line(heap, *code, readable(reader, *code, lines))?;
        text.push_str(line.as_str())?;
    }
    Ok(text)
}
