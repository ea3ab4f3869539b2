// Stored images: bytes that open as a deck, and that the deck hands back.
ghost use Rattle.std.specs.Prelude.{◌≡◌, ℕ, List, vec_items, Ok, Vec};
ghost use Rattle.std.specs.declared.alloc.Global.{Global};
ghost use Rattle.deck.specs.Tape.{TapeSet};
ghost use Rattle.image.specs.Stored.{Verdict};
ghost use Rattle.image.specs.Opened.{told, held, Exactly};

use super::refusal::Unopened;
use deck::Deck;

// A stored image of a tape set. It means the set that its bytes are judged to be.
pub trait Image: Deck {
    // What bytes are judged to be: a set, or the number and the place of the first check that fails.
    ghost judged: { List ℕ → Verdict TapeSet };

    // What it is for bytes to be the image of a set.
    ghost encodes: { List ℕ → TapeSet → Type 0 };

    // The bytes that an image was opened from.
    ghost source: { Self → Vec ℕ Global };

    // An image over these bytes, or the first check that fails, with the bytes.
    fn open(bytes: Vec<u8>) -> Result<Self, Unopened>
        ensures says { told result Self.meaning ≡ judged bytes.items }
        ensures keeps { held result source ≡ bytes }
        ensures exactly { Exactly (encodes bytes.items) (told result Self.meaning) };

    // The bytes that the image was opened from.
    fn into_bytes(self) -> Vec<u8>
        ensures { result ≡ source self };

    // An image means what its bytes are judged to be.
    ghost means: { (i : Self) → judged (vec_items (source i)) ≡ Ok (Self.meaning i) };
}
