// Calls to a reader over an image.
ghost use Rattle.std.specs.Prelude.{◌≡◌, ◌⊎◌, map, IfOk};
ghost use Rattle.witness.specs.Replies.{replies};
ghost use Rattle.bridge.specs.Asks.{question};
ghost use Rattle.bridge.specs.Answers.{sending, sent, played, Put};

use super::ask::{Ask, asked};
use super::stored::opened;
use super::words::{Told, tell, tell_closed};
use deck::Deck;
use std::alloc::{AllocError, Global};
use witness::play;

// Plays the calls to a fresh reader over a deck.
fn over<D: Deck + Drop>(heap: Global, deck: D, asks: &[Ask]) -> Result<Told, AllocError>
    ensures { IfOk result (λ t. sending t ≡ sent (replies (D.meaning deck) (map question asks.now))) }
{
    let calls = asked(heap, asks)?;
    tell(heap, play(heap, deck, calls)?)
}

// Opens an image, and plays the calls to a fresh reader over it.
fn played(heap: Global, form: u8, image: &[u8], asks: &[Ask]) -> Result<Told, AllocError>
    ensures { IfOk result (λ t. sending t ≡ played form image.now asks.now) }
{
    match opened(form, Vec::from_slice(heap, image)?) {
        Ok(deck) => over(heap, deck, asks),
        Err(unopened) => tell_closed(heap, unopened.refusal),
    }
}

// Puts words and bytes at the front of the caller's, if both fit. Answers how many words there were. Two slices, since C passes two.
pub(crate) fn put(told: Told, words: &mut [u64], buffers: &mut [u8]) -> usize
    ensures { Put (sending told) words.old buffers.old words.new buffers.new result }
{
    let all = told.words.as_slice();
    let bytes = told.buffers.as_slice();
    if all.len() > words.len() || bytes.len() > buffers.len() {
        return 0;
    }
    words[..all.len()].copy_from_slice(all);
    buffers[..bytes.len()].copy_from_slice(bytes);
    all.len()
}

// Plays calls to a fresh reader over an image, and puts six words for each answer and the bytes of all buffers at the front of the
// caller's. Answers how many words were written; 0, and nothing is written, where memory or room does not suffice.
#[unsafe(no_mangle)]
pub extern "C" fn gehunlo_play(
    heap: Global,
    form: u8,
    image: &[u8],
    asks: &[Ask],
    words: &mut [u64],
    buffers: &mut [u8],
) -> usize
    ensures { ((result ≡ 0) × (words.new ≡ words.old) × (buffers.new ≡ buffers.old)) ⊎ Put (played form image.now asks.now) words.old buffers.old words.new buffers.new result }
{
    match played(heap, form, image, asks) {
        Ok(told) => put(told, words, buffers),
        Err(_) => 0,
    }
}
