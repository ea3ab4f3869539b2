// A reader over a deck.
ghost use Rattle.std.specs.Prelude.{◌≡◌, ◌≤◌, length, IfOk, None};
ghost use Rattle.deck.specs.Tape.{from_one};
ghost use Rattle.survey.specs.Surveys.{surveyed};
ghost use Rattle.reader.specs.Bodies.{told, told_delivery, buffer_after, line_answer, sheet_answer, ident_answer, band_answer, survey_answer, accepted_by, bands_of, raised};

use super::body::{IDENTIFICATION, body};
use super::call::Outline;
use super::places::{band_file, codes, line_spot, sheet_spot};
use super::refusal::{CallerFault, Refusal};
use deck::{Deck, LONGEST_RECORD};
use machine::Accepted;
use records::Bands;
use survey::survey;

// The longest body of a record, in bytes: a buffer of this length takes the body of any line or sheet.
pub const LONGEST_BODY: usize = LONGEST_RECORD - IDENTIFICATION;

// The most lines that a tally counts: it stands still there.
const MOST_TALLIED: u64 = i64::MAX as u64;

// A reader owns its deck. It remembers what its last survey accepted, and how many lines it has delivered.
// No model: a view with the deck's meaning alone would weaken `new` and `into_deck`, which name the deck; one with the deck leaves each clause
// as it is.
#[derive(Drop)]
pub struct Reader<D> {
    deck: D,
    accepted: Option<Accepted>,
    tally: u64,
    scratch: [u8; LONGEST_RECORD],
}

impl<D: Deck> Reader<D> {
    // A fresh reader: no survey has accepted the set, and no line was delivered.
    pub fn new(deck: D) -> Self
        ensures { (result.deck ≡ deck) × ((result.accepted ≡ None) × (result.tally ≡ 0)) }
    {
        Reader {
            deck,
            accepted: None,
            tally: 0,
            scratch: [0; LONGEST_RECORD],
        }
    }

    // The deck, for which the reader is given up.
    pub fn into_deck(self) -> D
        ensures { result ≡ self.deck }
    {
        self.deck
    }

    // How many lines were delivered.
    pub fn tally(&self) -> u64
        ensures { result ≡ self.now.tally }
    {
        self.tally
    }

    // Surveys the set and remembers what it accepts, of which at most five bands are present. The tally stays.
    pub fn survey(&mut self) -> Result<Outline, Refusal>
        ensures stays { D.meaning self.new.deck ≡ D.meaning self.old.deck }
        ensures says { told result ≡ survey_answer (surveyed (D.meaning self.old.deck)) }
        ensures remembers { (self.new.accepted ≡ accepted_by (surveyed (D.meaning self.old.deck))) × (self.new.tally ≡ self.old.tally) }
        ensures few { IfOk result (λ o. o.bands ≤ 5) }
    {
        let surveyed = survey(&mut self.deck);
        self.accepted = surveyed.ok();
        Ok(Outline::from(surveyed?))
    }

    // The bands that are present: none where no survey has accepted the set.
    pub fn bands(&self) -> Bands
        ensures { result ≡ bands_of self.now.accepted }
    {
        match self.accepted {
            Some(accepted) => accepted.summary.bands,
            None => Bands::new(),
        }
    }

    // The k-th band present, k from 1.
    pub fn band(&self, k: u32) -> Result<u8, Refusal>
        ensures { told result ≡ band_answer self.now.accepted k }
    {
        // A rule of the project, here and below: where no survey has accepted the set, 41 comes before anything else.
        let Some(accepted) = self.accepted else {
            return Err(CallerFault::NotAccepted.into());
        };
        code_at(codes(&accepted.summary.bands), k).ok_or(CallerFault::Band.into())
    }

    // Puts the scene identification into a buffer. Here and below result and buffer have a clause each, not one for both: who counts lines or tells
    // refusals cites the first alone.
    pub fn ident(&self, buffer: &mut [u8]) -> Result<usize, Refusal>
        ensures says { told result ≡ told_delivery (ident_answer self.now.accepted (length buffer.old)) }
        ensures writes { buffer.new ≡ buffer_after (ident_answer self.now.accepted (length buffer.old)) buffer.old }
    {
        let Some(accepted) = self.accepted else {
            return Err(CallerFault::NotAccepted.into());
        };
        // `get_mut(..18)` in its place leaves four goals open.
        if buffer.len() < 18 {
            return Err(CallerFault::Buffer.into());
        }
        buffer[..18].copy_from_slice(&accepted.summary.ident);
        Ok(18)
    }

    // Puts the body of a line of a band into a buffer, and counts it. Each number of a band is answered: 42 where no such band is present.
    pub fn line(&mut self, band: u8, line: u32, buffer: &mut [u8]) -> Result<usize, Refusal>
        ensures stays { D.meaning self.new.deck ≡ D.meaning self.old.deck }
        ensures says { told result ≡ told_delivery (line_answer (D.meaning self.old.deck) self.old.accepted band line (length buffer.old)) }
        ensures writes { buffer.new ≡ buffer_after (line_answer (D.meaning self.old.deck) self.old.accepted band line (length buffer.old)) buffer.old }
        ensures remembers { (self.new.accepted ≡ self.old.accepted) × (self.new.tally ≡ raised (line_answer (D.meaning self.old.deck) self.old.accepted band line (length buffer.old)) self.old.tally) }
    {
        let Some(accepted) = self.accepted else {
            return Err(CallerFault::NotAccepted.into());
        };
        let file = band_file(&accepted, band).ok_or(CallerFault::Band)?;
        if !(1..=accepted.summary.lines).contains(&line) {
            return Err(CallerFault::Line.into());
        }
        let layout = accepted.summary.layout;
        let spot = line_spot(&file, layout, line);
        let length = body(&mut self.deck, spot, layout.form, &mut self.scratch, buffer)?;
        if self.tally < MOST_TALLIED {
            self.tally += 1;
        }
        Ok(length)
    }

    // Puts the body of a sheet of a band into a buffer: kind 1 the header, 2 an ancillary, 3 an annotation, 4 a trailer record. The kind is a number,
    // since each is answered: 44 for any other.
    pub fn sheet(
        &mut self,
        band: u8,
        kind: u8,
        index: u32,
        buffer: &mut [u8],
    ) -> Result<usize, Refusal>
        ensures stays { D.meaning self.new.deck ≡ D.meaning self.old.deck }
        ensures says { told result ≡ told_delivery (sheet_answer (D.meaning self.old.deck) self.old.accepted band kind index (length buffer.old)) }
        ensures writes { buffer.new ≡ buffer_after (sheet_answer (D.meaning self.old.deck) self.old.accepted band kind index (length buffer.old)) buffer.old }
        ensures remembers { (self.new.accepted ≡ self.old.accepted) × (self.new.tally ≡ self.old.tally) }
    {
        let Some(accepted) = self.accepted else {
            return Err(CallerFault::NotAccepted.into());
        };
        let file = band_file(&accepted, band).ok_or(CallerFault::Band)?;
        let layout = accepted.summary.layout;
        let spot = Some(sheet_spot(&file.group, layout, kind, index)?);
        body(&mut self.deck, spot, layout.form, &mut self.scratch, buffer).map_err(Refusal::from)
    }
}

// The k-th of some codes, k from 1.
fn code_at(codes: &[u8], k: u32) -> Option<u8>
    ensures { result ≡ from_one codes.now k }
{
    codes.get((k as usize).checked_sub(1)?).copied()
}
