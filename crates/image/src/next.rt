// One word of a strip, with its checks.
ghost use Rattle.std.specs.Prelude.{◌≡◌, ◌≤◌, length, drop};
ghost use Rattle.image.specs.Stored.{numbered, Short};
ghost use Rattle.image.specs.Strip.{next, check_closed};

use super::refusal::{Cause, Refusal, refused};
use super::stored::stored_by;
use super::word::{whole_word, word_at};
use deck::{Kind, MOST_BLOCKS, MOST_REELS};

// The word behind a reel's last block.
pub const REEL_END: u32 = 4294967294;

// What stands next on a strip: the end of a reel, or a block.
#[derive(Clone, Copy)]
pub enum Next {
    ReelEnds,
    Holds(Kind<usize>),
}

// Whether a record's bytes and its closing word fit, and whether that word is equal.
#[tactic(auto, using(std::proofs::lemmas::List::places, std::proofs::lemmas::Bool::Decides::nat_tests))]
fn closed(bytes: &[u8], at: usize, block: Kind<usize>) -> Result<Option<Next>, Refusal>
    requires within { at ≤ length bytes.now }
    requires short { Short block }
    ensures { numbered result ≡ check_closed at block (drop at bytes.now) }
{
    let Kind::Record(length) = block else {
        return Ok(Some(Next::Holds(block)));
    };
    let closing = at + (length + 4);
    match word_at(bytes, closing) {
        None => refused(Cause::CutShort, at),
        Some(word) if word as usize == length => Ok(Some(Next::Holds(block))),
        Some(_) => refused(Cause::IllegalWord, closing),
    }
}

// What stands at a place of a strip, behind so many whole reels and so many blocks of the next, and none at its end; or the first check that
// fails there.
#[tactic(auto, using(std::proofs::lemmas::List::places, std::proofs::lemmas::Bool::Decides::nat_tests))]
pub(crate) fn next_word(
    bytes: &[u8],
    at: usize,
    reels: usize,
    blocks: u32,
) -> Result<Option<Next>, Refusal>
    ensures { numbered result ≡ next at reels blocks (drop at bytes.now) }
{
    if at >= bytes.len() && reels > 0 && blocks == 0 {
        return Ok(None);
    }
    if reels >= MOST_REELS {
        return refused(Cause::OverLimit, at);
    }
    let word = whole_word(bytes, at)?;
    if word == REEL_END {
        return Ok(Some(Next::ReelEnds));
    }
    let Some(block) = stored_by(word) else {
        return refused(Cause::IllegalWord, at);
    };
    if blocks >= MOST_BLOCKS {
        return refused(Cause::OverLimit, at);
    }
    closed(bytes, at, block)
}
