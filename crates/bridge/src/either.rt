// One of two decks, which is a deck.
ghost use Rattle.bridge.specs.declared.either.Either.TheVariants.{Left, Right};

use deck::{Deck, Kind, Short};

// A deck of one kind or of another. It means what the deck in it means. The bridge's own enum, since it is a `Deck`: an impl
// of another crate's trait must name a type of this crate.
#[derive(Drop)]
pub(crate) enum Either<A, B> {
    Left(A),
    Right(B),
}

impl<A: Deck, B: Deck> Deck for Either<A, B> {
    ghost meaning = { elim [ Left a ↦ A.meaning a | Right b ↦ B.meaning b ] };

    ghost sound = { elim [ Left a ↦ A.sound a | Right b ↦ B.sound b ] };

    fn reels(&mut self) -> u32 {
        match self {
            Either::Left(deck) => deck.reels(),
            Either::Right(deck) => deck.reels(),
        }
    }

    fn kind(&mut self, reel: u32, block: u32) -> Option<Kind<usize>> {
        match self {
            Either::Left(deck) => deck.kind(reel, block),
            Either::Right(deck) => deck.kind(reel, block),
        }
    }

    fn fetch(
        &mut self,
        reel: u32,
        block: u32,
        buffer: &mut [u8],
    ) -> Result<Option<Kind<usize>>, Short> {
        match self {
            Either::Left(deck) => deck.fetch(reel, block, buffer),
            Either::Right(deck) => deck.fetch(reel, block, buffer),
        }
    }
}
