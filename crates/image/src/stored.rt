// A block as its kind word tells of it: a record with its length.
ghost use Rattle.std.specs.Prelude.{◌≡◌};
ghost use Rattle.image.specs.Stored.{stored};

use deck::Kind;

// The kind word of a tape mark.
pub const MARK: u32 = 0;

// The kind word of a bad block. Any other kind word is a record's length.
pub const BAD: u32 = 4294967295;

// What a kind word says, or none where it is no kind word.
// No `TryFrom`: `Kind` is deck's, and a crate gives std's traits only to its own types.
pub(crate) fn stored_by(word: u32) -> Option<Kind<usize>>
    ensures { result ≡ stored word }
{
    match word {
        MARK => Some(Kind::Mark),
        BAD => Some(Kind::Bad),
        1..=5388 => Some(Kind::Record(word as usize)),
        _ => None,
    }
}
