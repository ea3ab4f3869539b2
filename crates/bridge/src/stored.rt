// The deck that the numbers of a call name.
ghost use Rattle.std.specs.Prelude.{◌≡◌};
ghost use Rattle.image.specs.Opened.{told};
ghost use Rattle.bridge.specs.Answers.{opened};
ghost use Rattle.bridge.specs.Shows.{piled};

use super::either::Either;
use deck::Deck;
use image::{Image, Indexed, Strip, Unopened};
use turner::Turner;

// An image in either form.
pub(crate) type Stored = Either<Strip, Indexed>;

// Turners piled on a deck: none, or one or two.
pub(crate) type Pile<D> = Either<D, Either<Turner<D>, Turner<Turner<D>>>>;

// Opens an image: a strip for form 0, an indexed one for any other. The form is a number up to here, since it comes from C; that goes
// for form, image and turners, which each exported function takes as C passes them and hands on as they are.
pub(crate) fn opened(form: u8, bytes: Vec<u8>) -> Result<Stored, Unopened>
    ensures { told result ⟦<Stored as Deck>⟧.meaning ≡ opened form bytes.items }
{
    match form {
        0 => Ok(Either::Left(Strip::open(bytes)?)),
        _ => Ok(Either::Right(Indexed::open(bytes)?)),
    }
}

// Piles turners on a deck: none, one, or for any other number (which comes from C) two.
pub(crate) fn piled<D: Deck>(turners: u8, deck: D) -> Pile<D>
    ensures { ⟦<Pile<D> as Deck>⟧.meaning result ≡ piled turners (D.meaning deck) }
{
    match turners {
        0 => Either::Left(deck),
        1 => Either::Right(Either::Left(Turner::new(deck))),
        _ => Either::Right(Either::Right(Turner::new(Turner::new(deck)))),
    }
}
