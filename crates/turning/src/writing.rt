// Writes the set on a deck as a strip.
ghost use Rattle.std.specs.Prelude.{◌≡◌, ◌≤◌, length, IfOk};
ghost use Rattle.deck.specs.Tape.{look};
ghost use Rattle.deck.specs.Words.{word};
ghost use Rattle.image.specs.Strip.{encoded, reel_bytes};
ghost use Rattle.turning.specs.Written.{record_bytes, told_bytes, block_at};
ghost use Rattle.listing.specs.Blocks.{reel_of};

use deck::{Deck, Kind, LONGEST_RECORD, MOST_BLOCKS};
use image::{BAD, MARK, REEL_END};
use std::alloc::{AllocError, Global};

// A word of four bytes.
fn word_bytes(heap: Global, value: u32) -> Result<Vec<u8>, AllocError>
    ensures { IfOk result (λ v. v.items ≡ word value) }
{
    Ok(Vec::from_array(heap, value.to_be_bytes())?)
}

// A record between two words of its length.
fn record_bytes(heap: Global, content: &[u8]) -> Result<Vec<u8>, AllocError>
    requires { length content.now ≤ 5388 }
    ensures { IfOk result (λ v. v.items ≡ record_bytes content.now) }
{
    let length = (content.len() as u32).to_be_bytes();
    let mut bytes = Vec::new(heap);
    bytes.extend_from_slice(&length)?;
    bytes.extend_from_slice(content)?;
    bytes.extend_from_slice(&length)?;
    Ok(bytes)
}

// The bytes of a block, or none where there is no such block.
// `stays` is said here and below, since only a clause can tell that a `&mut` deck means what it meant.
fn block_bytes<D: Deck>(
    heap: Global,
    deck: &mut D,
    reel: u32,
    block: u32,
) -> Result<Option<Vec<u8>>, AllocError>
    ensures stays { D.meaning deck.new ≡ D.meaning deck.old }
    ensures bytes { IfOk result (λ o. told_bytes o ≡ block_at (look (D.meaning deck.old) reel block)) }
{
    let mut buffer = [0; LONGEST_RECORD];
    match deck.fetch(reel, block, &mut buffer) {
        Ok(Some(Kind::Record(length))) => Ok(Some(record_bytes(heap, &buffer[..length])?)),
        Ok(Some(Kind::Mark)) => Ok(Some(word_bytes(heap, MARK)?)),
        Ok(Some(Kind::Bad)) => Ok(Some(word_bytes(heap, BAD)?)),
        Ok(None) => Ok(None),
        Err(_) => Ok(None),
    }
}

// The blocks of a reel, and the word that ends it.
fn reel_bytes<D: Deck>(heap: Global, deck: &mut D, reel: u32) -> Result<Vec<u8>, AllocError>
    ensures stays { D.meaning deck.new ≡ D.meaning deck.old }
    ensures bytes { IfOk result (λ v. v.items ≡ reel_bytes (reel_of (D.meaning deck.old) reel)) }
{
    let mut bytes = Vec::new(heap);
    for block in 1..=MOST_BLOCKS {
        let Some(stored) = block_bytes(heap, deck, reel, block)? else {
            break;
        };
        bytes.extend_from_slice(stored.as_slice())?;
    }
    bytes.extend_from_slice(&REEL_END.to_be_bytes())?;
    Ok(bytes)
}

// The set on a deck as a strip.
// Listing's `blocks` goes over the reels in this shape too: a function for both would take the step as a closure, and be no shorter.
pub fn strip_bytes<D: Deck>(heap: Global, deck: &mut D) -> Result<Vec<u8>, AllocError>
    ensures stays { D.meaning deck.new ≡ D.meaning deck.old }
    ensures bytes { IfOk result (λ v. v.items ≡ encoded (D.meaning deck.old)) }
{
    let mut bytes = Vec::new(heap);
    for reel in 1..=deck.reels() {
        let written = reel_bytes(heap, deck, reel)?;
        bytes.extend_from_slice(written.as_slice())?;
    }
    Ok(bytes)
}
