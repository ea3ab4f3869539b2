// Why a call is refused.
ghost use Rattle.std.specs.Prelude.{◌≡◌};
ghost use Rattle.reader.specs.Refusals.{caller_number, told_refusal};
ghost use Rattle.reader.specs.declared.refusal.Refusal.TheVariants.{Tape, Caller};

use survey::TapeFault;

// What a caller has asked wrongly, or cannot have.
#[derive(Clone, Copy, PartialEq, Eq, Debug)]
pub enum CallerFault {
    // no survey of this reader has accepted the set
    NotAccepted,
    // no such band
    Band,
    // no such line
    Line,
    // no such kind of sheet, or none of that index
    Sheet,
    // the buffer is too short
    Buffer,
    // the line cannot be read
    Unreadable,
}

impl CallerFault {
    // The number by which callers know the refusal.
    pub fn number(self) -> u32
        ensures { result ≡ caller_number self }
    {
        match self {
            CallerFault::NotAccepted => 41,
            CallerFault::Band => 42,
            CallerFault::Line => 43,
            CallerFault::Sheet => 44,
            CallerFault::Buffer => 45,
            CallerFault::Unreadable => 46,
        }
    }
}

// A refused call: a fault of the tape, or of the caller.
#[derive(Clone, Copy, PartialEq, Eq, Debug)]
pub enum Refusal {
    Tape(TapeFault),
    Caller(CallerFault),
}

impl From<TapeFault> for Refusal {
    ghost from_gives = { λ f r. r ≡ Tape f };

    fn from(fault: TapeFault) -> Refusal {
        Refusal::Tape(fault)
    }
}

impl From<CallerFault> for Refusal {
    ghost from_gives = { λ f r. r ≡ Caller f };

    fn from(fault: CallerFault) -> Refusal {
        Refusal::Caller(fault)
    }
}

// What a refused call returns: the refusal's number, and the layer, reel and block of a fault of the tape, which are 0 where the caller is at fault.
// They are four words, as they go to a caller in C.
#[derive(Clone, Copy, PartialEq, Eq, Debug)]
pub struct Report {
    pub number: u32,
    pub layer: u32,
    pub reel: u32,
    pub block: u32,
}

impl Refusal {
    pub fn report(self) -> Report
        ensures { (result.number, result.layer, result.reel, result.block) ≡ told_refusal self }
    {
        match self {
            Refusal::Tape(fault) => Report {
                number: fault.cause.number(),
                layer: fault.cause.layer(),
                reel: fault.reel,
                block: fault.block,
            },
            Refusal::Caller(fault) => Report {
                number: fault.number(),
                layer: 0,
                reel: 0,
                block: 0,
            },
        }
    }
}
