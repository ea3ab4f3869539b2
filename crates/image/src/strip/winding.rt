// Winding a strip: a cursor goes to a reel, and over the blocks of that reel.
ghost use Rattle.std.specs.Prelude.{◌≡◌, ◌+◌, ◌<◌, ◌≤◌, [], length, slice_index_or};
ghost use Rattle.image.specs.Cursor.{Stands};
ghost use Rattle.image.specs.Opened.{strip_set};

use super::super::cursor::{Cursor, block_at};
use super::super::scan::size;
use super::Strip;

// A cursor is taken and given here, and the strip keeps the last one: written into the strip at each step, the way over short blocks took a quarter
// more time. So that a cursor stands on the strip is said of each method.
impl Strip {
    // A place on a reel to wind from: the strip's cursor, or the reel's beginning.
    #[tactic(auto, using(crate::proofs::Charts::reels_counted, crate::proofs::Charts::charted_span))]
    fn near(&self, reel: usize) -> Cursor
        requires { reel < length (strip_set self.now) }
        ensures stands { Stands self.now.bytes.items result }
        ensures turns { result.reel ≡ reel }
    {
        if self.cursor.reel == reel {
            return self.cursor;
        }
        Cursor {
            reel,
            block: 0,
            at: self.chart.as_slice()[reel].start,
        }
    }

    // Over the block that a cursor is on.
    #[tactic(auto, using(crate::proofs::Places::on_there, deck::proofs::Looks::reel_sound))]
    fn on(&self, cursor: Cursor) -> Cursor
        requires stands { Stands self.now.bytes.items cursor }
        requires before_end { cursor.block < length (slice_index_or (strip_set self.now) cursor.reel []) }
        ensures stands { Stands self.now.bytes.items result }
        ensures moves { (result.reel ≡ cursor.reel) × (result.block ≡ cursor.block + 1) }
    {
        let Cursor { reel, block, at } = cursor;
        let over = block_at(self.bytes.as_slice(), at).unwrap();
        Cursor {
            reel,
            block: block + 1,
            at: at + size(over),
        }
    }

    // Back over the block before a cursor.
    #[tactic(auto, using(crate::proofs::Places::behind_there))]
    fn back(&self, cursor: Cursor) -> Cursor
        requires stands { Stands self.now.bytes.items cursor }
        requires behind_start { 0 < cursor.block }
        ensures stands { Stands self.now.bytes.items result }
        ensures moves { (result.reel ≡ cursor.reel) × (result.block + 1 ≡ cursor.block) }
    {
        let Cursor { reel, block, at } = cursor;
        let over = block_at(self.bytes.as_slice(), at - 4).unwrap();
        Cursor {
            reel,
            block: block - 1,
            at: at - size(over),
        }
    }

    // To a block of a reel, both counted from 0, or to the reel's end, over the blocks between.
    pub(crate) fn wind(&mut self, reel: usize, block: u32)
        requires on_reel { reel < length (strip_set self.old) }
        requires on_block { block ≤ length (slice_index_or (strip_set self.old) reel []) }
        ensures stays { self.new.bytes ≡ self.old.bytes }
        ensures winds { (self.new.cursor.reel ≡ reel) × (self.new.cursor.block ≡ block) }
    {
        let mut cursor = self.near(reel);
        for _ in cursor.block..block {
            cursor = self.on(cursor);
        }
        for _ in block..cursor.block {
            cursor = self.back(cursor);
        }
        self.cursor = cursor;
    }
}
