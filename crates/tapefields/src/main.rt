// Prints the fields of a strip that comes on standard input: of its annotation records, and of one line where two words say which,
// its band's code and its number.
#![tactic(auto)]

use anyhow::anyhow;
use fieldlist::{Wanted, strip_fields};
use std::env;
use std::io::Read;

// The line that the program's words name, if there are any.
fn wanted(rt: &HostRuntime) -> anyhow::Result<Option<Wanted>> {
    let words: Vec<String> = env::args(rt)?.skip(1).collect(rt.alloc())?;
    match words.as_slice() {
        [] => Ok(None),
        [band, line] => Ok(Some(Wanted {
            band: band.as_str().parse::<u8>()?,
            line: line.as_str().parse::<u32>()?,
        })),
        _ => Err(anyhow!("usage: tapefields [BAND LINE] < STRIP")),
    }
}

fn run(rt: &HostRuntime) -> anyhow::Result<()> {
    let wanted = wanted(rt)?;
    let mut bytes = Vec::new(rt.alloc());
    rt.stdin().read_to_end(&mut bytes)?;
    rt.print(strip_fields(rt.alloc(), bytes, wanted)?)?;
    Ok(())
}

fn main(rt: HostRuntime) -> anyhow::Result<()> {
    run(&rt)
}
