// Lists of calls, played to a fresh reader.
ghost use Rattle.std.specs.Prelude.{◌≡◌, map, IfOk};
ghost use Rattle.reader.specs.Answers.{answer, memory_of, outcome_of};
ghost use Rattle.witness.specs.Pictured.{Shown};
ghost use Rattle.witness.specs.Replies.{asked, answered, replies};

use deck::Deck;
use reader::{Answer, Call, Reader, Refusal};
use std::alloc::{AllocError, Global};

// A call, and the buffer that it is given.
#[derive(Clone, Drop)]
pub struct Asked {
    pub call: Call,
    pub buffer: Vec<u8>,
}

// What a call answered, and the buffer afterwards. Answers are equal where all that they say is, and every byte of the buffers.
#[derive(PartialEq, Eq, Drop)]
pub struct Answered {
    pub answer: Result<Answer, Refusal>,
    pub buffer: Vec<u8>,
}

// What two readers answered, and whether they answered alike: the lists are handed out in either case, so the flag stands beside them.
#[derive(Drop)]
pub struct Twins {
    pub first: Vec<Answered>,
    pub second: Vec<Answered>,
    pub alike: bool,
}

// One call more.
fn ask<D: Deck>(reader: &mut Reader<D>, asked: Asked) -> Answered
    ensures stays { D.meaning reader.new.deck ≡ D.meaning reader.old.deck }
    ensures answers { outcome_of result.answer result.buffer.items reader.new ≡ answer (D.meaning reader.old.deck) (memory_of reader.old) asked.call asked.buffer.items }
{
    let Asked { call, mut buffer } = asked;
    let answer = reader.ask(call, buffer.as_mut_slice());
    Answered { answer, buffer }
}

// Asks a fresh reader over a deck all of these, one after the other. The code itself holds this one to the equation; `play` adds what follows.
fn ask_all<D: Deck + Drop>(
    heap: Global,
    deck: D,
    calls: Vec<Asked>,
) -> Result<Vec<Answered>, AllocError>
    ensures { IfOk result (λ v. map answered v.items ≡ replies (D.meaning deck) (map asked calls.items)) }
{
    let mut reader = Reader::new(deck);
    let mut answers = Vec::new(heap);
    for call in calls {
        answers.push(ask(&mut reader, call))?;
    }
    Ok(answers)
}

// Plays a list of calls to a fresh reader over a deck. Each is answered after those before it, and as the picture and the sheets of an accepted
// set say.
pub fn play<D: Deck + Drop>(
    heap: Global,
    deck: D,
    calls: Vec<Asked>,
) -> Result<Vec<Answered>, AllocError>
    ensures says { IfOk result (λ v. map answered v.items ≡ replies (D.meaning deck) (map asked calls.items)) }
    ensures shows { IfOk result (λ v. Shown (D.meaning deck) (map asked calls.items) (map answered v.items)) }
{
    ask_all(heap, deck, calls)
}
