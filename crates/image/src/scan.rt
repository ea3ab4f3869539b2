// A strip read from its first word to its last.
ghost use Rattle.std.specs.Prelude.{◌≡◌, Err, MatchResult};
ghost use Rattle.image.specs.Scan.{Scanned};
ghost use Rattle.image.specs.Stored.{number, Short};
ghost use Rattle.image.specs.Strip.{verdict, size};

use super::chart::{Chart, Span};
use super::next::{Next, next_word};
use super::refusal::Refusal;
use deck::Kind;

// How many bytes of a strip the block takes.
pub(crate) fn size(block: Kind<usize>) -> usize
    requires { Short block }
    ensures { result ≡ size block }
{
    match block {
        Kind::Record(length) => length + 8,
        Kind::Mark | Kind::Bad => 4,
    }
}

// The chart of the reels of a strip, or the first check that fails.
// The three numbers are counted here, and by no iterator: how far each goes depends on the word.
pub(crate) fn scan(bytes: &[u8]) -> Result<Chart, Refusal>
    ensures { MatchResult result (λ c. Scanned bytes.now c.items) (λ e. verdict bytes.now ≡ Err (number e.cause, e.offset)) }
{
    let mut chart = Chart::new();
    let mut start = 0;
    let mut blocks = 0;
    let mut at = 0;
    while let Some(next) = next_word(bytes, at, chart.len(), blocks)? {
        match next {
            Next::ReelEnds => {
                at += 4;
                chart.push(Span { start, blocks });
                start = at;
                blocks = 0;
            }
            Next::Holds(block) => {
                at += size(block);
                blocks += 1;
            }
        }
    }
    Ok(chart)
}
