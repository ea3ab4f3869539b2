// The pieces of the reel that is shown.
ghost use Rattle.std.specs.Prelude.{◌≡◌};
ghost use Rattle.turner.specs.Pieces.{piece_in, piece_behind, piece_at, piece_on};
ghost use Rattle.turner.specs.Shapes.{plan};

use super::shape::Turning;

// What stands at a block: a mark; the directory; the header of a group, counted from 0; the attribute record of a number; an image block of a
// group; or a trailer.
#[derive(Clone, Copy)]
pub enum Piece {
    Mark,
    Directory,
    Header(u32),
    Attribute(u32),
    Image(u32, u32),
    Trailer(u32),
}

impl Turning {
    // The piece at a place, counted from 0, of a group.
    fn piece_in(&self, group: u32, at: u32) -> Piece
        ensures { result ≡ piece_in (plan self.now) group at }
    {
        let sheets = self.accepted.summary.layout.attributes();
        let images = sheets + 1 + self.images();
        if at == 0 {
            Piece::Header(group)
        } else if at < sheets {
            Piece::Attribute(at + 1)
        } else if at == sheets {
            Piece::Mark
        } else if at < images {
            Piece::Image(group, at - sheets)
        } else if at == images {
            Piece::Mark
        } else if at < images + 1 + self.trailers() {
            Piece::Trailer(at - images)
        } else {
            Piece::Mark
        }
    }

    // The piece at a place, counted from 0, behind the directory's mark.
    fn piece_behind(&self, at: u32) -> Option<Piece>
        ensures { result ≡ piece_behind (plan self.now) at }
    {
        let length = self.accepted.summary.layout.attributes()
            + 1
            + self.images()
            + 1
            + self.trailers()
            + 1;
        let groups = self.groups();
        if at / length < groups {
            Some(self.piece_in(at / length, at % length))
        } else if at == groups * length {
            Some(Piece::Mark)
        } else {
            None
        }
    }

    // The piece at a block, counted from 1.
    fn piece_at(&self, block: u32) -> Option<Piece>
        ensures { result ≡ piece_at (plan self.now) block }
    {
        match block {
            0 => None,
            1 => Some(Piece::Directory),
            2 => Some(Piece::Mark),
            _ => self.piece_behind(block - 3),
        }
    }

    // The piece at a block of a reel. There is one reel.
    pub(crate) fn piece_on(&self, reel: u32, block: u32) -> Option<Piece>
        ensures { result ≡ piece_on (plan self.now) reel block }
    {
        if reel == 1 {
            self.piece_at(block)
        } else {
            None
        }
    }
}
