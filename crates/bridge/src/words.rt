// Answers in numbers, as they go over the border.
ghost use Rattle.std.specs.Prelude.{◌≡◌, [], ◌++◌, map, IfOk, OnOk};
ghost use Rattle.image.specs.Stored.{number};
ghost use Rattle.reader.specs.Answers.{told_answer, outlined};
ghost use Rattle.reader.specs.Refusals.{told_refusal};
ghost use Rattle.witness.specs.Replies.{answered};
ghost use Rattle.bridge.specs.Answers.{one, six, fault_words, unopened, all_words, all_buffers};

use image::Refusal;
use reader::{Answer, Outline};
use records::{Correction, Sensor};
use std::alloc::{AllocError, Global};
use witness::Answered;

// An answer takes six words: which one it is, and its numbers.
pub type Words = [u64; 6];

// An answer of one number: which one it is, and the number.
fn one(which: u64, number: u64) -> Words
    ensures { result ≡ one which number }
{
    [which, number, 0, 0, 0, 0]
}

// A summary: the letters of sensor and correction, as on tape (of CP and CA the second), and the numbers. The letters are matched here,
// since they go to C as numbers, and `Display` writes text.
fn summary(outline: Outline) -> Words
    ensures { result ≡ six (outlined outline) }
{
    let sensor = match outline.sensor {
        Sensor::Mss => b'M',
        Sensor::Rbv => b'R',
    };
    let correction = match outline.correction {
        Correction::Corrected => b'P',
        Correction::Uncorrected => b'A',
    };
    [
        1,
        sensor as u64,
        outline.mission as u64,
        correction as u64,
        outline.bands as u64,
        outline.lines as u64,
    ]
}

// A refused call.
fn refused(refusal: reader::Refusal) -> Words
    ensures { result ≡ fault_words (told_refusal refusal) }
{
    let report = refusal.report();
    [
        5,
        report.number as u64,
        report.layer as u64,
        report.reel as u64,
        report.block as u64,
        0,
    ]
}

// What a call answered.
fn words(answer: Result<Answer, reader::Refusal>) -> Words
    ensures { result ≡ six (told_answer answer) }
{
    match answer {
        Ok(Answer::Outline(outline)) => summary(outline),
        Ok(Answer::Code(code)) => one(2, code as u64),
        Ok(Answer::Delivered(length)) => one(3, length as u64),
        Ok(Answer::Tally(tally)) => one(4, tally),
        Err(refusal) => refused(refusal),
    }
}

// An image that does not open.
fn closed(refusal: Refusal) -> Words
    ensures { result ≡ unopened (number refusal.cause) refusal.offset }
{
    [
        6,
        refusal.cause.number() as u64,
        refusal.offset as u64,
        0,
        0,
        0,
    ]
}

// All that goes over the border: the words of the answers, and the bytes of their buffers. Two rows of different lengths, as C takes them.
#[derive(Drop)]
pub struct Told {
    pub words: Vec<u64>,
    pub buffers: Vec<u8>,
}

impl Told {
    // Nothing yet.
    pub(crate) fn new(heap: Global) -> Told
        ensures { (result.words.items ≡ []) × (result.buffers.items ≡ []) }
    {
        Told {
            words: Vec::new(heap),
            buffers: Vec::new(heap),
        }
    }

    // Words and the bytes of a buffer go behind those that are there.
    pub(crate) fn add(&mut self, words: &[u64], buffer: &[u8]) -> Result<(), AllocError>
        ensures { OnOk result ((self.new.words.items ≡ self.old.words.items ++ words.now) × (self.new.buffers.items ≡ self.old.buffers.items ++ buffer.now)) }
    {
        self.words.extend_from_slice(words)?;
        self.buffers.extend_from_slice(buffer)
    }
}

// The answers of a run.
pub(crate) fn tell(heap: Global, answers: Vec<Answered>) -> Result<Told, AllocError>
    ensures words { IfOk result (λ t. t.words.items ≡ all_words (map answered answers.items)) }
    ensures buffers { IfOk result (λ t. t.buffers.items ≡ all_buffers (map answered answers.items)) }
{
    let mut told = Told::new(heap);
    for answered in answers {
        told.add(&words(answered.answer), answered.buffer.as_slice())?;
    }
    Ok(told)
}

// A refused image is one answer, and has no buffer.
pub(crate) fn tell_closed(heap: Global, refusal: Refusal) -> Result<Told, AllocError>
    ensures words { IfOk result (λ t. t.words.items ≡ unopened (number refusal.cause) refusal.offset) }
    ensures buffers { IfOk result (λ t. t.buffers.items ≡ []) }
{
    let mut told = Told::new(heap);
    told.add(&closed(refusal), &[])?;
    Ok(told)
}
