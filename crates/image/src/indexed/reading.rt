// The indexed image as a deck.
ghost use Rattle.std.specs.Prelude.{◌≡◌, ◌*◌, ◌<◌, ◌≤◌, [], length, take, slice_index_or};
ghost use Rattle.deck.specs.Tape.{look};
ghost use Rattle.image.specs.Found.{seen};
ghost use Rattle.image.specs.Indexed.{blocks};
ghost use Rattle.image.specs.Opened.{indexed_set};

use super::super::found::{deliver, kind, listed_at};
use super::super::word::known_word;
use super::Indexed;
use deck::{Deck, Kind, Short};

impl Indexed {
    // How many reels the image has.
    #[tactic(auto, using(crate::proofs::Listings::is_image))]
    fn reel_count(&self) -> u32
        ensures { result ≡ length (indexed_set self.now) }
    {
        known_word(self.bytes.as_slice(), 0)
    }

    // How many blocks a reel has, counted from 0.
    #[tactic(auto, using(crate::proofs::Listings::is_image, deck::proofs::Looks::reel_sound))]
    fn block_count(&self, reel: usize) -> u32
        requires { reel < length (indexed_set self.now) }
        ensures counts { result ≡ length (slice_index_or (indexed_set self.now) reel []) }
        ensures few { result ≤ 65535 }
    {
        known_word(self.bytes.as_slice(), 4 + 4 * reel)
    }

    // How many blocks the reels before one have together.
    // A loop and no `sum` (tried): what each call of `block_count` in a closure needs, and how large the sum is, stay open.
    #[tactic(auto, using(crate::proofs::Listings::is_image))]
    fn blocks_before(&self, reel: usize) -> usize
        requires { reel ≤ length (indexed_set self.now) }
        ensures counts { result ≡ length (blocks (take reel (indexed_set self.now))) }
        ensures few { result ≤ 65535 * 9 }
    {
        let mut before = 0;
        for i in 0..reel {
            before += self.block_count(i) as usize;
        }
        before
    }

    // A block, reel and block counted from 1, its bytes lent.
    #[tactic(auto, using(crate::proofs::Listings::listed_there))]
    fn find(&self, reel: u32, block: u32) -> Option<Kind<&[u8]>>
        ensures { seen result ≡ look (indexed_set self.now) reel block }
    {
        let reels = self.reel_count() as usize;
        let reel = reel.checked_sub(1)? as usize;
        let block = block.checked_sub(1)?;
        if reel >= reels || block >= self.block_count(reel) {
            return None;
        }
        let entry = self.blocks_before(reel) + block as usize;
        listed_at(self.bytes.as_slice(), 4 + 4 * reels + 8 * entry)
    }
}

impl Deck for Indexed {
    ghost meaning = { indexed_set };

    ghost sound = { λ i. i.sound };

    fn reels(&mut self) -> u32 {
        self.reel_count()
    }

    fn kind(&mut self, reel: u32, block: u32) -> Option<Kind<usize>> {
        kind(self.find(reel, block))
    }

    fn fetch(
        &mut self,
        reel: u32,
        block: u32,
        buffer: &mut [u8],
    ) -> Result<Option<Kind<usize>>, Short> {
        deliver(self.find(reel, block), buffer)
    }
}
