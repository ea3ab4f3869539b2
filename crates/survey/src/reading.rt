// The survey of a deck.
ghost use Rattle.std.specs.Prelude.{◌≡◌, ◌-◌, ◌≤◌, [], length, is_some, IfOk, OnOk, slice_index_or};
ghost use Rattle.deck.specs.Tape.{look};
ghost use Rattle.machine.specs.Machines.{Steady, block_of, step};
ghost use Rattle.survey.specs.Laws.{Judged};
ghost use Rattle.survey.specs.Surveys.{shown_in, FitsIn, told_step, placed, feed_reel, told, surveyed};

use super::fault::TapeFault;
use deck::{Deck, Kind, LONGEST_RECORD};
use machine::{Accepted, Machine, Place};

// What a deck has shown: of a record, its bytes, which stand at the front of the scratch buffer.
fn seen_as(kind: Option<Kind<usize>>, scratch: &[u8]) -> Option<Kind<&[u8]>>
    requires { FitsIn kind scratch.now }
    ensures { block_of result ≡ shown_in kind scratch.now }
{
    Some(match kind? {
        Kind::Record(length) => Kind::Record(&scratch[..length]),
        Kind::Mark => Kind::Mark,
        Kind::Bad => Kind::Bad,
    })
}

// A survey under way: the machine, and the buffer into which blocks are fetched.
#[derive(Drop)]
struct Reading {
    machine: Machine,
    scratch: [u8; LONGEST_RECORD],
}

impl Reading {
    // Reads one block and hands it to the machine. Says whether there was one.
    fn take<D: Deck>(&mut self, deck: &mut D, at: Place) -> Result<bool, TapeFault>
        ensures stays { D.meaning deck.new ≡ D.meaning deck.old }
        ensures says { told_step result self.new.machine ≡ placed at (step self.old.machine at (look (D.meaning deck.old) at.reel at.block)) }
        ensures more { IfOk result (λ b. b ≡ is_some (look (D.meaning deck.old) at.reel at.block)) }
        ensures stays_steady { Steady self.old.machine → OnOk result (Steady self.new.machine) }
    {
        let kind = deck.fetch(at.reel, at.block, &mut self.scratch).unwrap();
        self.machine
            .step(at, seen_as(kind, &self.scratch))
            .map_err(|cause| TapeFault {
                cause,
                reel: at.reel,
                block: at.block,
            })?;
        Ok(kind.is_some())
    }

    // Reads a reel from its first block to its end.
    fn read_reel<D: Deck>(&mut self, deck: &mut D, reel: u32) -> Result<(), TapeFault>
        requires { (1 ≤ reel) × (reel ≤ length (D.meaning deck.old)) }
        ensures stays { D.meaning deck.new ≡ D.meaning deck.old }
        ensures says { told_step result self.new.machine ≡ feed_reel self.old.machine reel 1 (slice_index_or (D.meaning deck.old) (reel - 1) []) }
        ensures stays_steady { Steady self.old.machine → OnOk result (Steady self.new.machine) }
    {
        for block in 1.. {
            if !self.take(deck, Place { reel, block })? {
                break;
            }
        }
        Ok(())
    }
}

// Surveys the set that is on a deck: what an accepted set is, or the first fault in the order of the tape.
pub fn survey<D: Deck>(deck: &mut D) -> Result<Accepted, TapeFault>
    ensures stays { D.meaning deck.new ≡ D.meaning deck.old }
    ensures says { told result ≡ surveyed (D.meaning deck.old) }
    ensures judges { Judged (told result) (D.meaning deck.old) }
{
    let reels = deck.reels();
    let mut reading = Reading {
        machine: Machine::new(reels),
        scratch: [0; LONGEST_RECORD],
    };
    for reel in 1..=reels {
        reading.read_reel(deck, reel)?;
    }
    Ok(reading.machine.accepted())
}
