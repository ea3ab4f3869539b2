// The turner: a deck over a deck, which shows a set of the multispectral scanner on one reel in the other interleaving.
#![tactic(auto)]

mod change;
mod delivery;
mod origin;
mod piece;
mod shape;
mod showing;
mod source;

pub use showing::Turner;
