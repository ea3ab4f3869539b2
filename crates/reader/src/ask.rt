// Any call of a reader.
ghost use Rattle.std.specs.Prelude.{◌≡◌};
ghost use Rattle.reader.specs.Answers.{answer, memory_of, outcome_of};

use super::call::{Answer, Call};
use super::reading::Reader;
use super::refusal::Refusal;
use deck::Deck;

impl<D: Deck> Reader<D> {
    // Answers a call. A call that delivers nothing leaves the buffer as it is.
    pub fn ask(&mut self, call: Call, buffer: &mut [u8]) -> Result<Answer, Refusal>
        ensures stays { D.meaning self.new.deck ≡ D.meaning self.old.deck }
        ensures answers { outcome_of result buffer.new self.new ≡ answer (D.meaning self.old.deck) (memory_of self.old) call buffer.old }
    {
        match call {
            Call::Survey => Ok(Answer::Outline(self.survey()?)),
            Call::Band(k) => Ok(Answer::Code(self.band(k)?)),
            Call::Ident => Ok(Answer::Delivered(self.ident(buffer)?)),
            Call::Line(band, line) => Ok(Answer::Delivered(self.line(band, line, buffer)?)),
            Call::Sheet(band, kind, index) => Ok(Answer::Delivered(self.sheet(
                band, kind, index, buffer,
            )?)),
            Call::Tally => Ok(Answer::Tally(self.tally())),
        }
    }
}
