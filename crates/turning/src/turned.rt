// The strip of the turned set of a strip.
ghost use Rattle.std.specs.Prelude.{◌≡◌, Some, string_bytes, IfOk, IfSome};
ghost use Rattle.image.specs.Opened.{strip_set};
ghost use Rattle.turning.specs.Turned.{line_of, told_turned, set_turned, strip_turned};
ghost use Rattle.turning.specs.declared.turned.TurnError.TheVariants.{Image, Tape, Memory};

use super::writing::strip_bytes;
use image::{Image, Refusal, Strip, Unopened};
use listing::{fault_line, refusal};
use std::alloc::{AllocError, Global};
use survey::{TapeFault, survey};
use turner::Turner;

// Why there is no turned strip: the bytes are no image, their set has a fault, or memory is short.
#[derive(Clone, Copy, PartialEq, Eq, Debug)]
pub enum TurnError {
    Image(Refusal),
    Tape(TapeFault),
    Memory(AllocError),
}

impl From<Unopened> for TurnError {
    ghost from_gives = { λ u e. e ≡ Image u.refusal };

    fn from(unopened: Unopened) -> TurnError {
        TurnError::Image(unopened.refusal)
    }
}

impl From<TapeFault> for TurnError {
    ghost from_gives = { λ f e. e ≡ Tape f };

    fn from(fault: TapeFault) -> TurnError {
        TurnError::Tape(fault)
    }
}

impl From<AllocError> for TurnError {
    ghost from_gives = { λ m e. e ≡ Memory m };

    fn from(short: AllocError) -> TurnError {
        TurnError::Memory(short)
    }
}

impl TurnError {
    // The line of a refused image or a fault. Where memory is short there is none.
    pub fn line(self, heap: Global) -> Result<String, AllocError>
        ensures { IfOk result (λ t. line_of self ≡ Some (string_bytes t)) }
    {
        match self {
            TurnError::Image(refused) => refusal(heap, refused),
            TurnError::Tape(fault) => fault_line(heap, fault.into()),
            TurnError::Memory(short) => Err(short),
        }
    }
}

// The set of an opened strip, turned. One with a fault is refused.
fn set_turned(heap: Global, strip: Strip) -> Result<Vec<u8>, TurnError>
    ensures { IfSome (told_turned result) (λ t. t ≡ set_turned (strip_set strip)) }
{
    let mut strip = strip;
    survey(&mut strip)?;
    let mut turner = Turner::new(strip);
    Ok(strip_bytes(heap, &mut turner)?)
}

// Turns the set that these bytes are as a strip.
pub fn strip_turned(heap: Global, bytes: Vec<u8>) -> Result<Vec<u8>, TurnError>
    ensures { IfSome (told_turned result) (λ t. t ≡ strip_turned bytes.items) }
{
    set_turned(heap, Strip::open(bytes)?)
}
