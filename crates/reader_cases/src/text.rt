// The line that is printed of an answer.
ghost use Rattle.std.specs.Prelude.{◌≡◌, IfOk, string_bytes};
ghost use Rattle.reader.specs.Refusals.{told_refusal};
ghost use Rattle.reader_cases.specs.Texts.{summary_text, answer_text, refusal_text};

use reader::{Answer, Outline, Refusal, Report};
use std::alloc::{AllocError, Global};
use witness::Answered;

// A summary: sensor, mission, correction, number of bands, lines. Another text than that of a listing, whose line it is not.
fn summary(heap: Global, outline: Outline) -> Result<String, AllocError>
    ensures { IfOk result (λ t. string_bytes t ≡ summary_text outline) }
{
    let Outline {
        sensor,
        mission,
        correction,
        bands,
        lines,
    } = outline;
    format!(in heap; "set {sensor} {mission} {correction} {bands} {lines}")
}

fn answer_text(heap: Global, answer: Answer) -> Result<String, AllocError>
    ensures { IfOk result (λ t. string_bytes t ≡ answer_text answer) }
{
    match answer {
        Answer::Outline(outline) => summary(heap, outline),
        Answer::Code(code) => format!(in heap; "code {code}"),
        Answer::Delivered(length) => format!(in heap; "delivered {length}"),
        Answer::Tally(tally) => format!(in heap; "tally {tally}"),
    }
}

// A refusal's number, layer, reel and block. A caller's fault has no place.
fn refusal_text(heap: Global, refusal: Refusal) -> Result<String, AllocError>
    ensures { IfOk result (λ t. string_bytes t ≡ refusal_text (told_refusal refusal)) }
{
    let Report {
        number,
        layer,
        reel,
        block,
    } = refusal.report();
    format!(in heap; "refused {number} {layer} {reel} {block}")
}

// The sum of all bytes, each times its place counted from 1, modulo 2^32. The program turner_cases has these few lines too: a crate for
// them alone would be longer.
fn checksum(bytes: &[u8]) -> u64 {
    let mut sum: u64 = 0;
    for (index, byte) in bytes.iter().enumerate() {
        sum = sum.wrapping_add((index as u64 + 1).wrapping_mul(u64::from(*byte)));
    }
    sum % (1 << 32)
}

// A buffer: its length, checksum, first and last byte. Of an empty one nothing is said.
fn buffer_text(heap: Global, bytes: &[u8]) -> Result<String, AllocError> {
    let (Some(first), Some(last)) = (bytes.first(), bytes.last()) else {
        return Ok(String::new(heap));
    };
    let length = bytes.len();
    let sum = checksum(bytes);
    format!(in heap; ", buffer {length} {sum} {first} {last}")
}

// A call as it is written, what it answered, and its buffer afterwards.
pub fn answer_line(heap: Global, call: &str, answered: &Answered) -> Result<String, AllocError> {
    let said = match answered.answer {
        Ok(answer) => answer_text(heap, answer)?,
        Err(refusal) => refusal_text(heap, refusal)?,
    };
    let buffer = buffer_text(heap, answered.buffer.as_slice())?;
    format!(in heap; "{call}: {said}{buffer}")
}
