// Words of four bytes, most significant first.
// Bytes and a place are two parameters of all that read words, and no struct: a refusal tells the place itself, so each would take it apart.
ghost use Rattle.std.specs.Prelude.{◌≡◌, ◌+◌, ◌≤◌, length, drop, if◌then◌else◌, Some, None, nat_lt};
ghost use Rattle.deck.specs.Words.{value};
ghost use Rattle.image.specs.Indexed.{whole};
ghost use Rattle.image.specs.Stored.{numbered};

use super::refusal::{Cause, Refusal};

// The word at a place of an image, or none where fewer than four bytes are left.
#[tactic(auto, using(std::proofs::lemmas::List::places, std::proofs::lemmas::Bool::Decides::nat_tests))]
pub(crate) fn word_at(bytes: &[u8], at: usize) -> Option<u32>
    ensures { result ≡ (if nat_lt (length bytes.now) (at + 4) then None else Some (value (drop at bytes.now))) }
{
    let word = bytes.get(at..)?.first_chunk::<4>()?;
    Some(u32::from_be_bytes(*word))
}

// The word at a place, or the refusal of an image that is cut short there.
pub(crate) fn whole_word(bytes: &[u8], at: usize) -> Result<u32, Refusal>
    ensures { numbered result ≡ whole bytes.now at }
{
    word_at(bytes, at).ok_or(Refusal {
        cause: Cause::CutShort,
        offset: at,
    })
}

// The word at a place, where four bytes are left.
pub(crate) fn known_word(bytes: &[u8], at: usize) -> u32
    requires { at + 4 ≤ length bytes.now }
    ensures { result ≡ value (drop at bytes.now) }
{
    word_at(bytes, at).unwrap()
}
