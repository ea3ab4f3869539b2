// Lines and blocks of an image that are read only to be counted: for measurement.
ghost use Rattle.std.specs.Prelude.{◌≡◌, ◌⊎◌, cond, length};
ghost use Rattle.deck.specs.Answers.{filled};
ghost use Rattle.deck.specs.Tape.{look};
ghost use Rattle.reader.specs.Bodies.{line_answer, buffer_after};
ghost use Rattle.bridge.specs.Counts.{after_surveys, one_if, delivered_of, after_lines, one_if_record, counting, lines_of, blocks_of, blocks_through, lines_in, blocks_in};

use super::either::Either;
use super::stored::{opened, piled};
use deck::{Deck, Kind};
use reader::Reader;
use std::alloc::Global;

// What is answered where memory does not suffice: a number, since it goes to C.
pub const NO_MEMORY: u64 = u64::MAX;

// A line of a band.
#[repr(C)]
#[derive(Clone, Copy)]
pub struct WantedLine {
    pub line: u32,
    pub band: u8,
}

// A block of a reel, both counted from 1.
#[repr(C)]
#[derive(Clone, Copy)]
pub struct WantedBlock {
    pub reel: u32,
    pub block: u32,
}

// A reader that has surveyed its deck so many times. `stays` and `remembers`, here and below, are of this call alone: a type that held
// them would need the value before the call.
fn surveyed<D: Deck>(deck: D, surveys: u32) -> Reader<D>
    ensures stays { D.meaning result.deck ≡ D.meaning deck }
    ensures remembers { result.accepted ≡ after_surveys surveys (D.meaning deck) }
{
    let mut reader = Reader::new(deck);
    for _ in 0..surveys {
        let _ = reader.survey();
    }
    reader
}

// Whether the reader delivers a line.
fn delivers<D: Deck>(reader: &mut Reader<D>, wanted: &WantedLine, buffer: &mut [u8]) -> bool
    ensures stays { D.meaning reader.new.deck ≡ D.meaning reader.old.deck }
    ensures remembers { reader.new.accepted ≡ reader.old.accepted }
    ensures value { cond result 1 0 ≡ one_if (line_answer (D.meaning reader.old.deck) reader.old.accepted wanted.now.band wanted.now.line (length buffer.old)) }
    ensures writes { buffer.new ≡ buffer_after (line_answer (D.meaning reader.old.deck) reader.old.accepted wanted.now.band wanted.now.line (length buffer.old)) buffer.old }
{
    reader.line(wanted.band, wanted.line, buffer).is_ok()
}

// How many of the lines the reader delivers.
fn delivered<D: Deck>(reader: &mut Reader<D>, lines: &[WantedLine], buffer: &mut [u8]) -> u64
    ensures value { result ≡ delivered_of (D.meaning reader.old.deck) reader.old.accepted (length buffer.old) lines.now }
    ensures writes { buffer.new ≡ after_lines (D.meaning reader.old.deck) reader.old.accepted (length buffer.old) lines.now buffer.old }
{
    let mut count = 0;
    // a loop, since the closure of a `map` and `sum` would change the reader and the buffer
    for wanted in lines {
        count += u64::from(delivers(reader, wanted, buffer));
    }
    count
}

// Surveys a deck and reads lines from it.
fn lines_of<D: Deck + Drop>(deck: D, surveys: u32, lines: &[WantedLine], buffer: &mut [u8]) -> u64
    ensures { counting result buffer.new ≡ lines_of surveys lines.now buffer.old (D.meaning deck) }
{
    let mut reader = surveyed(deck, surveys);
    delivered(&mut reader, lines, buffer)
}

// Whether a block is a record. It is fetched; a record that does not fit the buffer is one too.
fn is_record<D: Deck>(deck: &mut D, wanted: &WantedBlock, buffer: &mut [u8]) -> bool
    ensures stays { D.meaning deck.new ≡ D.meaning deck.old }
    ensures value { cond result 1 0 ≡ one_if_record (look (D.meaning deck.old) wanted.now.reel wanted.now.block) }
    ensures writes { buffer.new ≡ filled (look (D.meaning deck.old) wanted.now.reel wanted.now.block) buffer.old }
{
    match deck.fetch(wanted.reel, wanted.block, buffer) {
        Ok(Some(Kind::Record(_))) | Err(_) => true,
        Ok(_) => false,
    }
}

// How many of the blocks are records.
fn blocks_of<D: Deck + Drop>(deck: D, blocks: &[WantedBlock], buffer: &mut [u8]) -> u64
    ensures { counting result buffer.new ≡ blocks_of blocks.now buffer.old (D.meaning deck) }
{
    let mut deck = deck;
    let mut count = 0;
    // a loop, since the closure of a `map` and `sum` would change the deck and the buffer
    for wanted in blocks {
        count += u64::from(is_record(&mut deck, wanted, buffer));
    }
    count
}

// How many of the blocks are records, through so many turners piled on a deck.
fn blocks_through<D: Deck + Drop>(
    turners: u8,
    deck: D,
    blocks: &[WantedBlock],
    buffer: &mut [u8],
) -> u64
    ensures { counting result buffer.new ≡ blocks_through turners blocks.now buffer.old (D.meaning deck) }
{
    match piled(turners, deck) {
        Either::Left(deck) => blocks_of(deck, blocks, buffer),
        Either::Right(Either::Left(deck)) => blocks_of(deck, blocks, buffer),
        Either::Right(Either::Right(deck)) => blocks_of(deck, blocks, buffer),
    }
}

// Opens an image, surveys it so many times, and reads lines from it into one buffer. Answers how many were delivered. C has a name for
// each of two functions, this one and that for blocks; what they share is in `opened`. Both ask once what `opened` and `piled` have made, and not
// at each line or block: where nothing is copied, as of a mark, asking takes as long as the fetch.
#[unsafe(no_mangle)]
pub extern "C" fn gehunlo_lines(
    heap: Global,
    form: u8,
    image: &[u8],
    surveys: u32,
    lines: &[WantedLine],
    buffer: &mut [u8],
) -> u64
    ensures { ((result ≡ 18446744073709551615) × (buffer.new ≡ buffer.old)) ⊎ (counting result buffer.new ≡ lines_in form image.now surveys lines.now buffer.old) }
{
    let Ok(bytes) = Vec::from_slice(heap, image) else {
        return NO_MEMORY;
    };
    match opened(form, bytes) {
        Ok(Either::Left(strip)) => lines_of(strip, surveys, lines, buffer),
        Ok(Either::Right(indexed)) => lines_of(indexed, surveys, lines, buffer),
        Err(_) => 0,
    }
}

// Opens an image and fetches blocks of it into one buffer, through so many turners piled on it. Answers how many of them are records.
#[unsafe(no_mangle)]
pub extern "C" fn gehunlo_blocks(
    heap: Global,
    form: u8,
    turners: u8,
    image: &[u8],
    blocks: &[WantedBlock],
    buffer: &mut [u8],
) -> u64
    ensures { ((result ≡ 18446744073709551615) × (buffer.new ≡ buffer.old)) ⊎ (counting result buffer.new ≡ blocks_in form turners image.now blocks.now buffer.old) }
{
    let Ok(bytes) = Vec::from_slice(heap, image) else {
        return NO_MEMORY;
    };
    match opened(form, bytes) {
        Ok(Either::Left(strip)) => blocks_through(turners, strip, blocks, buffer),
        Ok(Either::Right(indexed)) => blocks_through(turners, indexed, blocks, buffer),
        Err(_) => 0,
    }
}
