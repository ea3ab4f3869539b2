// Calls in numbers, as they come over the border.
ghost use Rattle.std.specs.Prelude.{◌≡◌, map, IfOk};
ghost use Rattle.witness.specs.Replies as replies;
ghost use Rattle.bridge.specs.Asks.{call_of, question};

use super::buffers::buffer;
use reader::Call;
use std::alloc::{AllocError, Global};
use witness::Asked;

// A call: which one (1 survey, 2 band, 3 ident, 4 line, 5 sheet, any other tally), its arguments, and its buffer's length. Of the arguments
// only those count that the call has; `number` is k, a line or an index. All are numbers, since C writes them.
#[repr(C)]
#[derive(Clone, Copy)]
pub struct Ask {
    pub number: u32,
    pub room: u32,
    pub what: u8,
    pub band: u8,
    pub kind: u8,
}

fn call(ask: &Ask) -> Call
    ensures { result ≡ call_of ask.now }
{
    match ask.what {
        1 => Call::Survey,
        2 => Call::Band(ask.number),
        3 => Call::Ident,
        4 => Call::Line(ask.band, ask.number),
        5 => Call::Sheet(ask.band, ask.kind, ask.number),
        _ => Call::Tally,
    }
}

// The call with its buffer.
fn prepared(heap: Global, ask: &Ask) -> Result<Asked, AllocError>
    ensures { IfOk result (λ a. replies.asked a ≡ question ask.now) }
{
    let call = call(ask);
    let buffer = buffer(heap, ask.room)?;
    Ok(Asked { call, buffer })
}

// The calls, each with its buffer.
pub(crate) fn asked(heap: Global, asks: &[Ask]) -> Result<Vec<Asked>, AllocError>
    ensures { IfOk result (λ v. map replies.asked v.items ≡ map question asks.now) }
{
    let mut calls = Vec::new(heap);
    for ask in asks {
        calls.push(prepared(heap, ask)?)?;
    }
    Ok(calls)
}
