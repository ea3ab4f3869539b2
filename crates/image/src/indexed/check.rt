// The words of an indexed image's header, with their checks.
ghost use Rattle.std.specs.Prelude.{◌≡◌, ◌+◌, ◌*◌, ◌≤◌, IfOk};
ghost use Rattle.image.specs.Indexed.{first_entry, header, passed, row, reel_count, block_count, block_total, entry, verdict};
ghost use Rattle.image.specs.Stored.{numbered};

use super::super::refusal::{Cause, Refusal, refused};
use super::super::stored::stored_by;
use super::super::word::whole_word;
use deck::{Kind, MOST_BLOCKS, MOST_REELS};

// The number of reels.
fn reel_count(bytes: &[u8]) -> Result<usize, Refusal>
    ensures { numbered result ≡ reel_count bytes.now }
{
    let reels = whole_word(bytes, 0)? as usize;
    if reels == 0 {
        return refused(Cause::IllegalWord, 0);
    }
    if reels > MOST_REELS {
        return refused(Cause::OverLimit, 0);
    }
    Ok(reels)
}

// The block count of a reel, at a place.
fn block_count(bytes: &[u8], at: usize) -> Result<u32, Refusal>
    ensures { numbered result ≡ block_count bytes.now at }
{
    let blocks = whole_word(bytes, at)?;
    if blocks > MOST_BLOCKS {
        return refused(Cause::OverLimit, at);
    }
    Ok(blocks)
}

// The entry of a block, at a place, behind which the header ends at `header`.
fn check_entry(bytes: &[u8], header: usize, at: usize) -> Result<(), Refusal>
    requires { at + 8 ≤ header }
    ensures { numbered result ≡ passed (entry bytes.now header at) }
{
    let offset = whole_word(bytes, at)? as usize;
    let kind = whole_word(bytes, at + 4)?;
    match stored_by(kind) {
        None => refused(Cause::IllegalWord, at + 4),
        Some(Kind::Record(length)) if offset < header || bytes.len() < offset + length => {
            refused(Cause::OutsideImage, at + 4)
        }
        Some(Kind::Mark | Kind::Bad) if offset != 0 => refused(Cause::IllegalWord, at + 4),
        Some(_) => Ok(()),
    }
}

// How many blocks the reels have together.
// A loop and no `try_fold` (tried): that the sum fits at each call of its closure, and what it comes to, stay open.
fn total_blocks(bytes: &[u8], reels: usize) -> Result<usize, Refusal>
    requires { reels ≤ 9 }
    ensures counts { numbered result ≡ block_total bytes.now reels }
    ensures few { IfOk result (λ blocks. blocks ≤ 65535 * 9) }
{
    let mut blocks = 0;
    for reel in 0..reels {
        blocks += block_count(bytes, 4 + 4 * reel)? as usize;
    }
    Ok(blocks)
}

// The entries of so many blocks, behind the counts of so many reels.
fn check_entries(bytes: &[u8], reels: usize, blocks: usize) -> Result<(), Refusal>
    requires few { (reels ≤ 9) × (blocks ≤ 65535 * 9) }
    ensures { numbered result ≡ passed (row (entry bytes.now (header reels blocks)) 8 (first_entry reels) blocks) }
{
    let first = 4 + 4 * reels;
    let header = first + 8 * blocks;
    for block in 0..blocks {
        check_entry(bytes, header, first + 8 * block)?;
    }
    Ok(())
}

// The header's words in order: the first check that fails.
pub(crate) fn check(bytes: &[u8]) -> Result<(), Refusal>
    ensures { numbered result ≡ passed (verdict bytes.now) }
{
    let reels = reel_count(bytes)?;
    let blocks = total_blocks(bytes, reels)?;
    check_entries(bytes, reels, blocks)
}
