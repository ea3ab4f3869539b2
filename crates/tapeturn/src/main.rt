// Turns the set of a strip that comes on standard input, and writes it as a strip. What is refused is told on standard error.
#![tactic(auto)]

use std::io;
use std::io::{Read, Write};
use turning::strip_turned;

fn main(rt: HostRuntime) -> io::Result<()> {
    let mut bytes = Vec::new(rt.alloc());
    rt.stdin().read_to_end(&mut bytes)?;
    match strip_turned(rt.alloc(), bytes) {
        Ok(strip) => rt.stdout().write_all(strip.as_slice()),
        Err(refused) => rt.eprint(refused.line(rt.alloc())?),
    }
}
