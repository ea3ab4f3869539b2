// Where the reels of a strip lie.
use arrayvec::ArrayVec;
use deck::MOST_REELS;

// Where a reel begins, and how many blocks it has.
#[derive(Clone, Copy, Default)]
pub struct Span {
    pub start: usize,
    pub blocks: u32,
}

// The spans of a strip's reels in order.
pub type Chart = ArrayVec<Span, MOST_REELS>;
