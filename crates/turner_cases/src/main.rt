// Lists turned sets. A line `turn NAME` of the file cases.txt names a strip that is turned as a strip, and a line `pile COUNT NAME` one that is shown by a
// pile of so many turners. Each is printed, and then the length, a checksum and the listing of the strip that is made of it.
#![tactic(auto)]

use anyhow::anyhow;
use deck::Deck;
use image::{Image, Strip};
use listing::{refusal, tape};
use std::fs;
use turner::Turner;
use turning::{strip_bytes, strip_turned};

// The sum of all bytes, each times its place counted from 1, modulo 2^32.
// `reader_cases` has these five lines too: a crate for them would be longer.
fn checksum(bytes: &[u8]) -> u64 {
    let mut sum: u64 = 0;
    for (index, byte) in bytes.iter().enumerate() {
        sum = sum.wrapping_add((index as u64 + 1).wrapping_mul(u64::from(*byte)));
    }
    sum % (1 << 32)
}

// A strip: its length, its checksum and what is listed of it.
fn show(rt: &HostRuntime, bytes: Vec<u8>) -> anyhow::Result<()> {
    let length = bytes.len();
    let sum = checksum(bytes.as_slice());
    let listing = match Strip::open(bytes) {
        Ok(strip) => tape(rt.alloc(), strip)?,
        Err(unopened) => refusal(rt.alloc(), unopened.refusal)?,
    };
    print!(rt; "BYTES {length} {sum}\n{listing}")?;
    Ok(())
}

// The set on a deck, written as a strip.
fn show_deck<D: Deck + Drop>(rt: &HostRuntime, deck: D) -> anyhow::Result<()> {
    let mut deck = deck;
    show(rt, strip_bytes(rt.alloc(), &mut deck)?)
}

// A strip under so many turners: an arm for each, since each pile is a type of its own.
fn pile(rt: &HostRuntime, count: &str, strip: Strip) -> anyhow::Result<()> {
    match count {
        "1" => show_deck(rt, Turner::new(strip)),
        "2" => show_deck(rt, Turner::new(Turner::new(strip))),
        "3" => show_deck(rt, Turner::new(Turner::new(Turner::new(strip)))),
        _ => Err(anyhow!("no such pile")),
    }
}

// The bytes of a file.
fn read(rt: &HostRuntime, name: &str) -> anyhow::Result<Vec<u8>> {
    let path = format!(in rt.alloc(); "{name}.strip")?;
    Ok(fs::read(rt, path.as_str())?)
}

fn case(rt: &HostRuntime, words: &[&str]) -> anyhow::Result<()> {
    match words {
        ["turn", name] => match strip_turned(rt.alloc(), read(rt, name)?) {
            Ok(strip) => show(rt, strip),
            Err(refused) => Ok(rt.print(refused.line(rt.alloc())?)?),
        },
        ["pile", count, name] => match Strip::open(read(rt, name)?) {
            Ok(strip) => pile(rt, count, strip),
            Err(unopened) => Ok(rt.print(refusal(rt.alloc(), unopened.refusal)?)?),
        },
        _ => Err(anyhow!("no such case")),
    }
}

fn all(rt: &HostRuntime) -> anyhow::Result<()> {
    let text = fs::read_to_string(rt, "cases.txt")?;
    for line in text.as_str().lines() {
        println!(rt; "{line}")?;
        let words: Vec<&str> = line.split_whitespace().collect(rt.alloc())?;
        case(rt, words.as_slice())?;
    }
    Ok(())
}

fn main(rt: HostRuntime) -> anyhow::Result<()> {
    all(&rt)
}
