// A reel as runs of equal blocks.
ghost use Rattle.std.specs.Prelude.{◌≡◌, length, IfOk, string_bytes};
ghost use Rattle.listing.specs.Blocks.{noun_for, run_text, runs_text, reel_text, reel_of};

use deck::{Deck, Kind};
use std::alloc::{AllocError, Global};

// The word for so many.
fn noun<'a>(count: usize, one: &'a str, many: &'a str) -> &'a str
    ensures { result.now ≡ noun_for count one.now many.now }
{
    if count == 1 { one } else { many }
}

// The line of a run.
fn run_line(heap: Global, count: usize, kind: Kind<usize>) -> Result<String, AllocError>
    ensures { IfOk result (λ t. string_bytes t ≡ run_text count kind) }
{
    match kind {
        Kind::Record(length) => {
            let records = noun(count, "record", "records");
            format!(in heap; "{count} {records} of {length}\n")
        }
        Kind::Mark => {
            let marks = noun(count, "mark", "marks");
            format!(in heap; "{count} {marks}\n")
        }
        Kind::Bad => format!(in heap; "{count} bad\n"),
    }
}

// How many blocks a reel has, and the lines of its runs.
struct Runs {
    blocks: u32,
    text: String,
}

// The runs of a reel. The deck is asked once for each block and once behind the last, and memory is taken for the text alone.
fn runs_of<D: Deck>(heap: Global, deck: &mut D, reel: u32) -> Result<Runs, AllocError>
    ensures stays { D.meaning deck.new ≡ D.meaning deck.old }
    ensures blocks { IfOk result (λ r. r.blocks ≡ length (reel_of (D.meaning deck.old) reel)) }
    ensures text { IfOk result (λ r. string_bytes r.text ≡ runs_text 1 (reel_of (D.meaning deck.old) reel)) }
{
    let mut text = String::new(heap);
    let mut blocks = 0;
    let mut count = 0;
    let mut kind = deck.kind(reel, 1);
    while let Some(run) = kind {
        blocks += 1;
        count += 1;
        kind = deck.kind(reel, blocks + 1);
        if kind != Some(run) {
            let line = run_line(heap, count, run)?;
            text.push_str(line.as_str())?;
            count = 0;
        }
    }
    Ok(Runs { blocks, text })
}

// A reel by its number. `stays`, here and at `runs_of`, is the deck's own clause, said of this call.
pub fn reel_listing<D: Deck>(heap: Global, deck: &mut D, reel: u32) -> Result<String, AllocError>
    ensures stays { D.meaning deck.new ≡ D.meaning deck.old }
    ensures text { IfOk result (λ t. string_bytes t ≡ reel_text reel (reel_of (D.meaning deck.old) reel)) }
{
    let Runs {
        blocks: count,
        text: runs,
    } = runs_of(heap, deck, reel)?;
    let blocks = noun(count as usize, "block", "blocks");
    format!(in heap; "reel {reel}: {count} {blocks}\n{runs}")
}
