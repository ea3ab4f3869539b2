// The turner as a deck.
ghost use Rattle.std.specs.Prelude.{◌≡◌};
ghost use Rattle.turner.specs.Laws.{Kept};
ghost use Rattle.turner.specs.Shapes.{planned};
ghost use Rattle.turner.specs.Shown.{shown, turned};
ghost use Rattle.turner.specs.Sounds.{planned_sound};

use super::delivery::kind_from;
use super::shape::Turning;
use deck::{Deck, Kind, Short};
use survey::survey;

// A turner owns its deck. It remembers what a survey of the deck has found, where the set is accepted and is one of the scanner.
#[derive(Drop)]
pub struct Turner<D> {
    deck: D,
    turning: Option<Turning>,
}

impl<D: Deck> Turner<D> {
    // A turner by what a survey of the deck finds.
    fn surveyed(deck: D) -> Self
        ensures keeps { D.meaning result.deck ≡ D.meaning deck }
        ensures means { shown (planned result.turning) (D.meaning result.deck) ≡ turned (D.meaning deck) }
    {
        let mut deck = deck;
        let turning = survey(&mut deck).ok().and_then(Turning::of);
        Turner { deck, turning }
    }

    // A turner over a deck, which is surveyed. It shows the set turned, which keeps an accepted set accepted and its picture as it is.
    pub fn new(deck: D) -> Self
        ensures keeps { D.meaning result.deck ≡ D.meaning deck }
        ensures means { shown (planned result.turning) (D.meaning result.deck) ≡ turned (D.meaning deck) }
        ensures law { Kept (D.meaning deck) }
    {
        Turner::surveyed(deck)
    }

    // The deck, for which the turner is given up.
    pub fn into_deck(self) -> D
        ensures { result ≡ self.deck }
    {
        self.deck
    }
}

impl<D: Deck> Deck for Turner<D> {
    ghost meaning = { λ t. shown (planned t.turning) (D.meaning t.deck) };

    ghost sound = { λ t. planned_sound t.turning (D.meaning t.deck) (D.sound t.deck) };

    fn reels(&mut self) -> u32 {
        match self.turning {
            Some(_) => 1,
            None => self.deck.reels(),
        }
    }

    fn kind(&mut self, reel: u32, block: u32) -> Option<Kind<usize>> {
        let Some(turning) = self.turning else {
            return self.deck.kind(reel, block);
        };
        let piece = turning.piece_on(reel, block)?;
        Some(kind_from(&mut self.deck, turning.source_of(piece)))
    }

    fn fetch(
        &mut self,
        reel: u32,
        block: u32,
        buffer: &mut [u8],
    ) -> Result<Option<Kind<usize>>, Short> {
        let Some(turning) = self.turning else {
            return self.deck.fetch(reel, block, buffer);
        };
        let Some(piece) = turning.piece_on(reel, block) else {
            return Ok(None);
        };
        Ok(Some(turning.deliver(&mut self.deck, piece, buffer)?))
    }
}
