// Lists the tape sets of many strips. The file list.txt names them, a path to a line, as vectors/001: for each its number stands on a line, and
// then its listing.
#![tactic(auto)]

use listing::strip_tape;
use std::{fs, io};

// The last part of a path.
fn last_part(path: &str) -> &str {
    path.rsplit('/').next().unwrap_or(path)
}

fn main(rt: HostRuntime) -> io::Result<()> {
    let list = fs::read_to_string(&rt, "list.txt")?;
    for path in list.as_str().lines() {
        let file = format!(in rt.alloc(); "{path}.strip")?;
        let bytes = fs::read(&rt, file.as_str())?;
        let number = last_part(path);
        let listing = strip_tape(rt.alloc(), bytes)?;
        print!(rt; "{number}\n{listing}")?;
    }
    Ok(())
}
