// The way from C or Rust to stored sets: each function opens an image from bytes, and asks a reader or a deck over it.
#![tactic(auto)]

mod ask;
mod buffers;
mod calls;
mod counts;
mod either;
mod show;
mod stored;
mod words;

pub use ask::Ask;
pub use calls::gehunlo_play;
pub use counts::{WantedBlock, WantedLine, gehunlo_blocks, gehunlo_lines};
pub use show::{Fetch, gehunlo_show};
