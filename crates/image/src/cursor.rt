// A place on a strip.
ghost use Rattle.std.specs.Prelude.{◌≡◌};
ghost use Rattle.image.specs.Cursor.{stored_at};

use super::stored::stored_by;
use super::word::word_at;
use deck::Kind;

// A block of a reel, both counted from 0, or the end of the reel; and where it lies in the strip.
#[derive(Clone, Copy)]
pub struct Cursor {
    pub reel: usize,
    pub block: u32,
    pub at: usize,
}

// The block whose kind word lies at a place, if a kind word does.
pub(crate) fn block_at(bytes: &[u8], at: usize) -> Option<Kind<usize>>
    ensures { result ≡ stored_at bytes.now at }
{
    stored_by(word_at(bytes, at)?)
}
