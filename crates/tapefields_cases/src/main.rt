// Prints the fields of many strips. A line `strip NAME` of the file cases.txt names one, and may say by two words more which line is wanted; a line
// `zeros COUNT` stands for so many zeros. Each is printed, and then what is printed of its strip.
#![tactic(auto)]

use anyhow::anyhow;
use fieldlist::{Wanted, strip_fields};
use std::fs;

// The bytes of a file.
fn strip(rt: &HostRuntime, name: &str) -> anyhow::Result<Vec<u8>> {
    let path = format!(in rt.alloc(); "{name}.strip")?;
    Ok(fs::read(rt, path.as_str())?)
}

// The strip that these words name, and the line of it that is wanted. Its two numbers are read here and in `tapefields`: a function for both would
// be no shorter than the two parses.
fn asked(rt: &HostRuntime, words: &[&str]) -> anyhow::Result<(Vec<u8>, Option<Wanted>)> {
    match words {
        ["zeros", count] => {
            let count = count.parse::<u32>()?;
            Ok((vec![in rt.alloc(); 0; count as usize]?, None))
        }
        ["strip", name] => Ok((strip(rt, name)?, None)),
        ["strip", name, band, line] => {
            let band = band.parse::<u8>()?;
            let line = line.parse::<u32>()?;
            Ok((strip(rt, name)?, Some(Wanted { band, line })))
        }
        _ => Err(anyhow!("no such case")),
    }
}

// Prints a case. Empty lines and lines that begin with `#` are none.
fn case(rt: &HostRuntime, line: &str) -> anyhow::Result<()> {
    let words: Vec<&str> = line.split_whitespace().collect(rt.alloc())?;
    match words.as_slice() {
        [] | ["#", ..] => Ok(()),
        words => {
            let (bytes, wanted) = asked(rt, words)?;
            let text = strip_fields(rt.alloc(), bytes, wanted)?;
            print!(rt; "{line}\n{text}")?;
            Ok(())
        }
    }
}

fn all(rt: &HostRuntime) -> anyhow::Result<()> {
    let text = fs::read_to_string(rt, "cases.txt")?;
    for line in text.as_str().lines() {
        case(rt, line)?;
    }
    Ok(())
}

fn main(rt: HostRuntime) -> anyhow::Result<()> {
    all(&rt)
}
