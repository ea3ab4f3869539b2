// Tape decks. A deck means a tape set, 1 to 9 reels of blocks, and tells of it block by block. What it tells follows
// from that meaning and the arguments alone, and no call changes the meaning.
#![tactic(auto)]

ghost use Rattle.std.specs.Prelude.{◌≡◌, length};
ghost use Rattle.deck.specs.Answers.{kind_of, fetched, filled};
ghost use Rattle.deck.specs.Tape.{TapeSet, Sound, look};

// The longest record that a tape holds, in bytes: a buffer of this length takes any record.
pub const LONGEST_RECORD: usize = 5388;

// The most reels in a set.
pub const MOST_REELS: usize = 9;

// The most blocks on a reel.
pub const MOST_BLOCKS: u32 = 65535;

// The kind of a block: a record, with what is told of it (its length, its bytes); a tape mark; or a bad block. Where there may be no block,
// an `Option` says so.
// It has no `map`: a public `map` would have to require that its closure may be called, and no public function here asks anything.
#[derive(Clone, Copy, PartialEq, Eq, Debug)]
pub enum Kind<R> {
    Record(R),
    Mark,
    Bad,
}

// The answer of a fetch whose buffer is shorter than the record.
#[derive(Clone, Copy, PartialEq, Eq, Debug)]
pub struct Short;

// A tape deck. Its calls take `&mut self`, since a real deck winds its tape. Reels and blocks are counted from 1.
// Reel and block are two numbers, and no struct: most callers count blocks, and would make a struct for each call.
// `stays` is said of each function that is lent a deck: of what a call leaves as it was only a clause can tell, and no type.
pub trait Deck {
    // The tape set that is on the deck.
    ghost meaning: { Self → TapeSet };

    // How many reels there are.
    fn reels(&mut self) -> u32
        ensures stays { meaning self.new ≡ meaning self.old }
        ensures value { result ≡ length (meaning self.old) };

    // What stands at a block of a reel, a record with its length, if there is such a block.
    fn kind(&mut self, reel: u32, block: u32) -> Option<Kind<usize>>
        ensures stays { meaning self.new ≡ meaning self.old }
        ensures value { result ≡ kind_of (look (meaning self.old) reel block) };

    // The same, and a record's bytes are put at the front of the buffer. Where the buffer is shorter than the record, the
    // answer is `Short`. Nothing else is written.
    fn fetch(
        &mut self,
        reel: u32,
        block: u32,
        buffer: &mut [u8],
    ) -> Result<Option<Kind<usize>>, Short>
        ensures stays { meaning self.new ≡ meaning self.old }
        ensures value { result ≡ fetched (look (meaning self.old) reel block) (length buffer.old) }
        ensures bytes { buffer.new ≡ filled (look (meaning self.old) reel block) buffer.old };

    ghost sound: { (d : Self) → Sound (meaning d) };
}
