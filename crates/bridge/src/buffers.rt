// The buffers of calls and fetches.
ghost use Rattle.std.specs.Prelude.{◌≡◌, replicate, IfOk};

use std::alloc::{AllocError, Global};

// The byte that fills a buffer before its call.
pub const FILL: u8 = 165;

// A buffer of this length.
pub(crate) fn buffer(heap: Global, room: u32) -> Result<Vec<u8>, AllocError>
    ensures { IfOk result (λ v. v.items ≡ replicate room 165) }
{
    vec![in heap; FILL; room as usize]
}
