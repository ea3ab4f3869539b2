// What is wrong with a tape set, and where.
use records::Cause;

// A fault of the tape: its cause, and the reel and block at which it was found. Callers read and set the two, so no `Place` holds them.
#[derive(Clone, Copy, PartialEq, Eq, Debug)]
pub struct TapeFault {
    pub cause: Cause,
    pub reel: u32,
    pub block: u32,
}
