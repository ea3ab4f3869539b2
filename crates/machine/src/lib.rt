// The machine that reads a set block by block: what it expects, what it does with each block that comes, and what it has found in the end.
#![tactic(auto)]

mod accepted;
mod image;
mod machine;
mod step;

pub use accepted::{Accepted, Places, Summary};
pub use machine::{Expect, Group, Machine, Onward, Place};
