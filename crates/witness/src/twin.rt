// Two readers that are asked the same.
ghost use Rattle.std.specs.Prelude.{◌≡◌, map, IfOk, Decides};
ghost use Rattle.witness.specs.Promises.{Promise};
ghost use Rattle.witness.specs.Replies.{asked, answered, replies};

use super::calls::{Answered, Asked, Twins, play};
use deck::Deck;
use std::alloc::{AllocError, Global};

// Whether two lists of answers say the same, with every byte of the buffers.
#[tactic(auto, using(crate::proofs::Deciding::lists_decide))]
fn same(first: &[Answered], second: &[Answered]) -> bool
    ensures { Decides result (map answered first.now ≡ map answered second.now) }
{
    first == second
}

// The same calls once more, with buffers of their own.
#[tactic(auto, using(crate::proofs::Alike::cloned))]
fn copies(heap: Global, calls: &[Asked]) -> Result<Vec<Asked>, AllocError>
    ensures { IfOk result (λ v. map asked v.items ≡ map asked calls.now) }
{
    Vec::from_clones(heap, calls)
}

// Plays the same calls, with the same buffers, to a fresh reader over each of two decks, and says whether both answered alike.
pub fn twins<D: Deck + Drop, E: Deck + Drop>(
    heap: Global,
    one: D,
    other: E,
    calls: Vec<Asked>,
) -> Result<Twins, AllocError>
    ensures first { IfOk result (λ t. map answered t.first.items ≡ replies (D.meaning one) (map asked calls.items)) }
    ensures second { IfOk result (λ t. map answered t.second.items ≡ replies (E.meaning other) (map asked calls.items)) }
    ensures promise { Promise (D.meaning one) (E.meaning other) }
    ensures alike { IfOk result (λ t. Decides t.alike (replies (D.meaning one) (map asked calls.items) ≡ replies (E.meaning other) (map asked calls.items))) }
{
    let again = copies(heap, &calls)?;
    let first = play(heap, one, calls)?;
    let second = play(heap, other, again)?;
    let alike = same(&first, &second);
    Ok(Twins {
        first,
        second,
        alike,
    })
}
