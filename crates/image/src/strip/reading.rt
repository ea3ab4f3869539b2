// The strip as a deck.
ghost use Rattle.std.specs.Prelude.{◌≡◌, ◌<◌, ◌≤◌, [], length, slice_index_or, MatchOption};
ghost use Rattle.deck.specs.Tape.{look};
ghost use Rattle.image.specs.Found.{found_where};
ghost use Rattle.image.specs.Opened.{strip_set};

use super::super::found::{deliver, found_at, kind};
use super::Strip;
use deck::{Deck, Kind, Short};

impl Strip {
    // How many blocks a reel has, counted from 0, if there is such a reel.
    #[tactic(auto, using(crate::proofs::Charts::reels_counted, crate::proofs::Charts::charted_span))]
    fn block_count(&self, reel: usize) -> Option<u32>
        ensures { MatchOption result (length (strip_set self.now) ≤ reel) (λ n. (reel < length (strip_set self.now)) × (n ≡ length (slice_index_or (strip_set self.now) reel []))) }
    {
        Some(self.chart.as_slice().get(reel)?.blocks)
    }

    // Winds to a block, reel and block counted from 1, and answers where it lies, if there is such a block.
    #[tactic(auto, using(crate::proofs::Places::found_there))]
    fn wind_to(&mut self, reel: u32, block: u32) -> Option<usize>
        ensures stays { self.new.bytes ≡ self.old.bytes }
        ensures finds { found_where self.old.bytes.items result ≡ look (strip_set self.old) reel block }
    {
        let reel = reel.checked_sub(1)? as usize;
        let block = block.checked_sub(1)?;
        if block >= self.block_count(reel)? {
            return None;
        }
        self.wind(reel, block);
        Some(self.cursor.at)
    }
}

impl Deck for Strip {
    ghost meaning = { strip_set };

    ghost sound = { λ s. s.sound };

    #[tactic(auto, using(crate::proofs::Charts::reels_counted))]
    fn reels(&mut self) -> u32 {
        self.chart.len() as u32
    }

    fn kind(&mut self, reel: u32, block: u32) -> Option<Kind<usize>> {
        let at = self.wind_to(reel, block)?;
        kind(found_at(self.bytes.as_slice(), at))
    }

    fn fetch(
        &mut self,
        reel: u32,
        block: u32,
        buffer: &mut [u8],
    ) -> Result<Option<Kind<usize>>, Short> {
        let Some(at) = self.wind_to(reel, block) else {
            return Ok(None);
        };
        deliver(found_at(self.bytes.as_slice(), at), buffer)
    }
}
