// Blocks as a deck shows them.
ghost use Rattle.std.specs.Prelude.{◌≡◌, ◌⊎◌, length, IfOk};
ghost use Rattle.bridge.specs.Answers.{sending, Put};
ghost use Rattle.bridge.specs.Shows.{kind_number, fetch_number, words_of, buffer_of, sent_of, piled, shown};

use super::buffers::buffer;
use super::calls::put;
use super::either::Either;
use super::stored::{opened, piled};
use super::words::{Told, tell_closed};
use deck::{Deck, Kind, Short};
use std::alloc::{AllocError, Global};

// A block that is asked for, and the length of the buffer for it.
#[repr(C)]
#[derive(Clone, Copy)]
pub struct Fetch {
    pub reel: u32,
    pub block: u32,
    pub room: u32,
}

// What a deck said of a block, and the buffer afterwards.
#[derive(Drop)]
struct Seen {
    words: [u64; 4],
    buffer: Vec<u8>,
}

// 1 and the length for a record, 2 for a mark, 3 for a bad block, 0 for none. Numbers, since they go to C.
fn kind_number(kind: Option<Kind<usize>>) -> (u64, u64)
    ensures { result ≡ kind_number kind }
{
    match kind {
        Some(Kind::Record(length)) => (1, length as u64),
        Some(Kind::Mark) => (2, 0),
        Some(Kind::Bad) => (3, 0),
        None => (0, 0),
    }
}

// The same, and 4 for a buffer that is too short.
fn fetch_number(fetched: Result<Option<Kind<usize>>, Short>) -> (u64, u64)
    ensures { result ≡ fetch_number fetched }
{
    match fetched {
        Ok(kind) => kind_number(kind),
        Err(_) => (4, 0),
    }
}

// Asks a deck for a block in both ways. `stays` is the deck's own clause, said of this call.
fn look_at<D: Deck>(heap: Global, deck: &mut D, fetch: &Fetch) -> Result<Seen, AllocError>
    ensures stays { D.meaning deck.new ≡ D.meaning deck.old }
    ensures words { IfOk result (λ s. s.words ≡ words_of (D.meaning deck.old) fetch.now) }
    ensures fills { IfOk result (λ s. s.buffer.items ≡ buffer_of (D.meaning deck.old) fetch.now) }
{
    let mut buffer = buffer(heap, fetch.room)?;
    let (kind, length) = kind_number(deck.kind(fetch.reel, fetch.block));
    let fetched = deck.fetch(fetch.reel, fetch.block, buffer.as_mut_slice());
    let (answer, copied) = fetch_number(fetched);
    Ok(Seen {
        words: [kind, length, answer, copied],
        buffer,
    })
}

// Asks a deck for its number of reels and for blocks.
fn asked_of<D: Deck + Drop>(heap: Global, deck: D, fetches: &[Fetch]) -> Result<Told, AllocError>
    ensures { IfOk result (λ t. sending t ≡ sent_of (D.meaning deck) fetches.now) }
{
    let mut deck = deck;
    let mut told = Told::new(heap);
    told.add(&[deck.reels() as u64], &[])?;
    for fetch in fetches {
        let seen = look_at(heap, &mut deck, fetch)?;
        told.add(&seen.words, seen.buffer.as_slice())?;
    }
    Ok(told)
}

// Asks for blocks through so many turners piled on a deck. What `piled` has made is asked once, and not at each block; so in `shown` with `opened`.
fn through<D: Deck + Drop>(
    heap: Global,
    turners: u8,
    deck: D,
    fetches: &[Fetch],
) -> Result<Told, AllocError>
    ensures { IfOk result (λ t. sending t ≡ sent_of (piled turners (D.meaning deck)) fetches.now) }
{
    match piled(turners, deck) {
        Either::Left(deck) => asked_of(heap, deck, fetches),
        Either::Right(Either::Left(deck)) => asked_of(heap, deck, fetches),
        Either::Right(Either::Right(deck)) => asked_of(heap, deck, fetches),
    }
}

// Opens an image and asks it for blocks through turners.
fn shown(
    heap: Global,
    form: u8,
    turners: u8,
    image: &[u8],
    fetches: &[Fetch],
) -> Result<Told, AllocError>
    ensures { IfOk result (λ t. sending t ≡ shown form turners image.now fetches.now) }
{
    match opened(form, Vec::from_slice(heap, image)?) {
        Ok(Either::Left(strip)) => through(heap, turners, strip, fetches),
        Ok(Either::Right(indexed)) => through(heap, turners, indexed, fetches),
        Err(unopened) => tell_closed(heap, unopened.refusal),
    }
}

// Opens an image and asks it for blocks, through so many turners piled on it, and puts the number of reels, four words for each block
// and the bytes of all buffers at the front of the caller's. Answers how many words were written; 0, and nothing is written, where
// memory or room does not suffice.
#[unsafe(no_mangle)]
pub extern "C" fn gehunlo_show(
    heap: Global,
    form: u8,
    turners: u8,
    image: &[u8],
    fetches: &[Fetch],
    words: &mut [u64],
    buffers: &mut [u8],
) -> usize
    ensures { ((result ≡ 0) × (words.new ≡ words.old) × (buffers.new ≡ buffers.old)) ⊎ Put (shown form turners image.now fetches.now) words.old buffers.old words.new buffers.new result }
{
    match shown(heap, form, turners, image, fetches) {
        Ok(told) => put(told, words, buffers),
        Err(_) => 0,
    }
}
