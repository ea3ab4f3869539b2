// Why bytes are not an image.
ghost use Rattle.std.specs.Prelude.{◌≡◌, Err};
ghost use Rattle.image.specs.Stored.{number};

#[derive(Clone, Copy, PartialEq, Eq, Debug)]
pub enum Cause {
    CutShort,
    IllegalWord,
    OverLimit,
    OutsideImage,
}

impl Cause {
    // The refusal's number. A `match` tells it, since callers know a refusal by its number.
    pub fn number(self) -> u32
        ensures { result ≡ number self }
    {
        match self {
            Cause::CutShort => 1,
            Cause::IllegalWord => 2,
            Cause::OverLimit => 3,
            Cause::OutsideImage => 4,
        }
    }
}

// A refusal: its cause, and how far the word lies behind the image's first byte.
#[derive(Clone, Copy, PartialEq, Eq, Debug)]
pub struct Refusal {
    pub cause: Cause,
    pub offset: usize,
}

// The word at an offset, refused.
pub(crate) fn refused<T>(cause: Cause, offset: usize) -> Result<T, Refusal>
    ensures { result ≡ Err record { cause = cause; offset = offset } }
{
    Err(Refusal { cause, offset })
}

// Bytes that were refused, handed back with the refusal.
#[derive(Drop)]
pub struct Unopened {
    pub refusal: Refusal,
    pub bytes: Vec<u8>,
}
