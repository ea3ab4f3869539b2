// Lists the blocks of a strip that comes on standard input.
#![tactic(auto)]

use listing::strip_blocks;
use std::io;
use std::io::Read;

fn main(rt: HostRuntime) -> io::Result<()> {
    let mut bytes = Vec::new(rt.alloc());
    rt.stdin().read_to_end(&mut bytes)?;
    rt.print(strip_blocks(rt.alloc(), bytes)?)
}
