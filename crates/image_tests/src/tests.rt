// Images at their edges. What is expected follows from the two formats.
ghost use Rattle.std.specs.Prelude.{◌≤◌};

use deck::{Deck, Kind, Short};
use image::{Image, Indexed, Strip};
use std::alloc::{AllocError, Global};
use std::process::Abort;
use std::test::Fail;

// Words, most significant byte first, and then bytes.
fn spelt(heap: Global, words: &[u32], tail: &[u8]) -> Result<Vec<u8>, AllocError> {
    let mut bytes = Vec::new(heap);
    for word in words {
        bytes.extend_from_slice(&word.to_be_bytes())?;
    }
    bytes.extend_from_slice(tail)?;
    Ok(bytes)
}

// Bytes are refused as an image, with this number and place, and they come back.
fn refused<I: Image + Drop>(
    rt: &impl Abort,
    bytes: Vec<u8>,
    number: u32,
    offset: usize,
) -> Result<(), Fail> {
    let given = bytes.clone()?;
    match I::open(bytes) {
        Ok(_) => Err(Fail::new("it opened")),
        Err(e) => {
            assert_eq!(rt; e.refusal.cause.number(), number);
            assert_eq!(rt; e.refusal.offset, offset);
            assert!(rt; e.bytes.as_slice() == given.as_slice());
            Ok(())
        }
    }
}

// The image that bytes are.
fn opened<I: Image>(bytes: Vec<u8>) -> Result<I, &'static str> {
    I::open(bytes).map_err(|_| "it was refused")
}

#[test]
fn strips_refused(rt: HostRuntime) -> Result<(), Fail> {
    let heap = rt.alloc();
    let cases: [(&[u8], u32, usize); 12] = [
        (b"", 1, 0),
        (b"\0", 1, 0),
        (b"\0\0", 1, 0),
        (b"\0\0\0", 1, 0),
        (b"\0\0\0\0", 1, 4),
        (b"\xff\xff\xff\xfe\0", 1, 4),
        (b"\0\0\0\x01a\0\0\0", 1, 0),
        (b"\0\0\0\x01a\0\0\0\x02\xff\xff\xff\xfe", 2, 5),
        (b"\0\0\x15\x0c", 1, 0),
        (b"\0\0\x15\x0d", 2, 0),
        (b"\0\0\0\0\xff\xff\xff\xfd", 2, 4),
        (b"\xff\xff\xff\xfe\xff\xff\xff\xff", 1, 8),
    ];
    for (bytes, number, offset) in cases {
        refused::<Strip>(&rt, Vec::from_slice(heap, bytes)?, number, offset)?;
    }
    Ok(())
}

#[test]
fn indexed_refused(rt: HostRuntime) -> Result<(), Fail> {
    let heap = rt.alloc();
    let cases: [(&[u32], &[u8], u32, usize); 22] = [
        (&[], b"", 1, 0),
        (&[], b"\0", 1, 0),
        (&[], b"\0\0", 1, 0),
        (&[], b"\0\0\x01", 1, 0),
        (&[0], b"", 2, 0),
        (&[10], b"", 3, 0),
        (&[1], b"", 1, 4),
        (&[1, 65536], b"", 3, 4),
        (&[2, 1, 65536], b"", 3, 8),
        (&[1, 1], b"", 1, 8),
        (&[1, 1, 0], b"\0\0\0", 1, 12),
        (&[1, 1, 0, 4294967294], b"", 2, 12),
        (&[1, 1, 16, 5389], b"abc", 2, 12),
        (&[1, 1, 1, 0], b"", 2, 12),
        (&[1, 1, 16, 4294967295], b"abc", 2, 12),
        (&[1, 1, 17, 3], b"abc", 4, 12),
        (&[1, 1, 16, 4], b"abc", 4, 12),
        (&[1, 1, 19, 1], b"abc", 4, 12),
        (&[1, 1, 15, 3], b"abc", 4, 12),
        (&[1, 1, 0, 3], b"abc", 4, 12),
        (&[1, 1, 4294967295, 5388], b"abc", 4, 12),
        (&[2, 1, 1, 0, 0, 27, 1], b"a", 4, 24),
    ];
    for (words, tail, number, offset) in cases {
        refused::<Indexed>(&rt, spelt(heap, words, tail)?, number, offset)?;
    }
    Ok(())
}

// Nine reels are a set, and nothing may follow them on a strip.
#[test]
fn nine_reels(rt: HostRuntime) -> Result<(), Fail> {
    let heap = rt.alloc();
    let ends = [4294967294; 9];
    let mut strip: Strip = opened(spelt(heap, &ends, b"")?)?;
    assert_eq!(rt; strip.reels(), 9);
    assert_eq!(rt; strip.kind(9, 1), None);
    refused::<Strip>(&rt, spelt(heap, &ends, b"\0")?, 3, 36)?;
    let bytes = spelt(heap, &[9, 0, 0, 0, 0, 0, 0, 0, 0, 0], b"free")?;
    let mut indexed: Indexed = opened(bytes)?;
    assert_eq!(rt; indexed.reels(), 9);
    Ok(())
}

// A reel of so many marks, as a strip and as an indexed image.
fn strip_of_marks(heap: Global, marks: usize) -> Result<Vec<u8>, AllocError>
    requires { marks ≤ 65536 }
{
    let mut bytes = vec![in heap; 0; 4 * marks]?;
    bytes.extend_from_slice(&4294967294u32.to_be_bytes())?;
    Ok(bytes)
}

fn index_of_marks(heap: Global, marks: u32) -> Result<Vec<u8>, AllocError>
    requires { marks ≤ 65536 }
{
    let mut bytes = spelt(heap, &[1, marks], b"")?;
    let entries: Vec<u8> = vec![in heap; 0; 8 * marks as usize]?;
    bytes.extend_from_slice(entries.as_slice())?;
    Ok(bytes)
}

#[test]
fn most_blocks(rt: HostRuntime) -> Result<(), Fail> {
    let heap = rt.alloc();
    let mut strip: Strip = opened(strip_of_marks(heap, 65535)?)?;
    assert_eq!(rt; strip.kind(1, 65535), Some(Kind::Mark));
    assert_eq!(rt; strip.kind(1, 65536), None);
    assert_eq!(rt; strip.kind(1, 1), Some(Kind::Mark));
    refused::<Strip>(&rt, strip_of_marks(heap, 65536)?, 3, 262140)?;
    let mut indexed: Indexed = opened(index_of_marks(heap, 65535)?)?;
    assert_eq!(rt; indexed.kind(1, 65535), Some(Kind::Mark));
    assert_eq!(rt; indexed.kind(1, 65536), None);
    refused::<Indexed>(&rt, index_of_marks(heap, 65536)?, 3, 4)
}

// One set in both images: a record, a mark and a bad block; no block; two records and a mark.
fn strip(heap: Global) -> Result<Strip, Fail> {
    let bytes = Vec::from_slice(
        heap,
        b"\0\0\0\x03abc\0\0\0\x03\0\0\0\0\xff\xff\xff\xff\xff\xff\xff\xfe\xff\xff\xff\xfe\0\0\0\x01z\0\0\0\x01\0\0\0\x05hello\0\0\0\x05\0\0\0\0\xff\xff\xff\xfe",
    )?;
    Ok(opened(bytes)?)
}

fn indexed(heap: Global) -> Result<Indexed, Fail> {
    let words = [3, 3, 0, 3, 64, 3, 0, 0, 0, 4294967295, 72, 1, 67, 5, 0, 0];
    Ok(opened(spelt(heap, &words, b"abchelloz")?)?)
}

// What a deck answers of each place of that set, and a buffer of eight dashes after a fetch.
fn answers<D: Deck>(rt: &impl Abort, deck: &mut D) {
    let places: [(u32, u32, Option<Kind<usize>>, &[u8; 8]); 14] = [
        (1, 1, Some(Kind::Record(3)), b"abc-----"),
        (1, 2, Some(Kind::Mark), b"--------"),
        (1, 3, Some(Kind::Bad), b"--------"),
        (1, 4, None, b"--------"),
        (2, 1, None, b"--------"),
        (3, 1, Some(Kind::Record(1)), b"z-------"),
        (3, 2, Some(Kind::Record(5)), b"hello---"),
        (3, 3, Some(Kind::Mark), b"--------"),
        (3, 4, None, b"--------"),
        (4, 1, None, b"--------"),
        (0, 1, None, b"--------"),
        (1, 0, None, b"--------"),
        (0, 0, None, b"--------"),
        (4294967295, 4294967295, None, b"--------"),
    ];
    assert_eq!(rt; deck.reels(), 3);
    for (reel, block, kind, after) in places {
        let mut buffer = *b"--------";
        assert_eq!(rt; deck.kind(reel, block), kind);
        assert_eq!(rt; deck.fetch(reel, block, &mut buffer), Ok(kind));
        assert_eq!(rt; buffer, *after);
    }
}

// A fetch of the first record, of three bytes, into buffers of lengths around it.
fn rooms<D: Deck>(rt: &impl Abort, deck: &mut D) {
    let cases: [(usize, Result<Option<Kind<usize>>, Short>, &[u8; 4]); 4] = [
        (0, Err(Short), b"----"),
        (2, Err(Short), b"----"),
        (3, Ok(Some(Kind::Record(3))), b"abc-"),
        (4, Ok(Some(Kind::Record(3))), b"abc-"),
    ];
    for (room, answer, after) in cases {
        let mut buffer = *b"----";
        assert!(rt; room <= 4);
        assert_eq!(rt; deck.fetch(1, 1, &mut buffer[0..room]), answer);
        assert_eq!(rt; buffer, *after);
    }
}

#[test]
fn strip_answers(rt: HostRuntime) -> Result<(), Fail> {
    let mut strip = strip(rt.alloc())?;
    answers(&rt, &mut strip);
    rooms(&rt, &mut strip);
    Ok(())
}

#[test]
fn indexed_answers(rt: HostRuntime) -> Result<(), Fail> {
    let mut indexed = indexed(rt.alloc())?;
    answers(&rt, &mut indexed);
    rooms(&rt, &mut indexed);
    Ok(())
}

// Two decks answer alike at a place.
fn alike<A: Deck, B: Deck>(rt: &impl Abort, a: &mut A, b: &mut B, reel: u32, block: u32) {
    let mut one = *b"--------";
    let mut two = *b"--------";
    assert_eq!(rt; a.kind(reel, block), b.kind(reel, block));
    assert_eq!(rt;
        a.fetch(reel, block, &mut one),
        b.fetch(reel, block, &mut two)
    );
    assert_eq!(rt; one, two);
}

// Whichever way a strip is read, forwards, backwards or across its reels.
#[test]
fn either_way(rt: HostRuntime) -> Result<(), Fail> {
    let mut strip = strip(rt.alloc())?;
    let mut indexed = indexed(rt.alloc())?;
    let places = [
        (1, 1),
        (1, 2),
        (1, 3),
        (1, 4),
        (2, 1),
        (3, 1),
        (3, 2),
        (3, 3),
        (3, 4),
    ];
    for (reel, block) in places {
        alike(&rt, &mut strip, &mut indexed, reel, block);
    }
    for (reel, block) in places.iter().rev() {
        alike(&rt, &mut strip, &mut indexed, *reel, *block);
    }
    for (reel, block) in [
        (3, 3),
        (1, 1),
        (3, 2),
        (1, 3),
        (2, 1),
        (3, 1),
        (1, 2),
        (3, 3),
        (3, 1),
    ] {
        alike(&rt, &mut strip, &mut indexed, reel, block);
    }
    Ok(())
}

// The longest record, and a buffer one byte too short for it.
fn longest<D: Deck>(rt: &impl Abort, deck: &mut D) {
    let mut buffer = [1; 5388];
    assert_eq!(rt; deck.kind(1, 1), Some(Kind::Record(5388)));
    assert_eq!(rt; deck.fetch(1, 1, &mut buffer[0..5387]), Err(Short));
    assert!(rt; buffer == [1; 5388]);
    assert_eq!(rt; deck.fetch(1, 1, &mut buffer), Ok(Some(Kind::Record(5388))));
    assert!(rt; buffer == [7; 5388]);
}

#[test]
fn longest_record(rt: HostRuntime) -> Result<(), Fail> {
    let heap = rt.alloc();
    let mut strip = spelt(heap, &[5388], &[7; 5388])?;
    strip.extend_from_slice(b"\0\0\x15\x0c\xff\xff\xff\xfe")?;
    longest(&rt, &mut opened::<Strip>(strip)?);
    let indexed = spelt(heap, &[1, 1, 16, 5388], &[7; 5388])?;
    longest(&rt, &mut opened::<Indexed>(indexed)?);
    Ok(())
}

// Records of an indexed image may overlap, and bytes that no entry names are free.
#[test]
fn overlapping(rt: HostRuntime) -> Result<(), Fail> {
    let mut indexed: Indexed = opened(spelt(rt.alloc(), &[1, 2, 25, 3, 26, 3], b"-abcd-")?)?;
    let mut buffer = *b"----";
    assert_eq!(rt; indexed.fetch(1, 2, &mut buffer), Ok(Some(Kind::Record(3))));
    assert_eq!(rt; buffer, *b"bcd-");
    assert_eq!(rt; indexed.fetch(1, 1, &mut buffer), Ok(Some(Kind::Record(3))));
    assert_eq!(rt; buffer, *b"abc-");
    Ok(())
}

// The image that bytes are hands these bytes back.
fn back<I: Image>(rt: &impl Abort, bytes: Vec<u8>, expected: &[u8]) -> Result<(), Fail> {
    let image: I = opened(bytes)?;
    assert!(rt; image.into_bytes().as_slice() == expected);
    Ok(())
}

// The bytes come back from both images, those that no block names among them.
#[test]
fn bytes_back(rt: HostRuntime) -> Result<(), Fail> {
    let heap = rt.alloc();
    let strip = spelt(heap, &[0, 4294967294], b"")?;
    back::<Strip>(&rt, strip, b"\0\0\0\0\xff\xff\xff\xfe")?;
    let indexed = spelt(heap, &[1, 1, 16, 1], b"a!")?;
    back::<Indexed>(&rt, indexed, b"\0\0\0\x01\0\0\0\x01\0\0\0\x10\0\0\0\x01a!")
}
