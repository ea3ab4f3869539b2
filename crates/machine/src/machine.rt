// The survey's machine: what it has read, and what it expects.
ghost use Rattle.std.specs.Prelude.{◌≡◌};
ghost use Rattle.machine.specs.Machines.{fresh};

use deck::MOST_REELS;
use records::{Bands, Content, DIRECTORY_LENGTH, Header, Layout, MOST_BANDS};

// A block of a reel, both counted from 1.
#[derive(Clone, Copy, PartialEq, Eq, Debug)]
pub struct Place {
    pub reel: u32,
    pub block: u32,
}

// What stands on the next reel behind its directory's mark: a header; or an image file that goes on, or that has just ended.
#[derive(Clone, Copy)]
pub enum Onward {
    Header,
    Image,
}

// What must come next.
#[derive(Clone, Copy)]
pub enum Expect {
    // a reel's directory, and its mark, with what follows there if a reel follows
    Directory(Option<Onward>),
    DirectoryMark(Option<Onward>),
    // a header; the attribute record of a number; the mark behind these
    Header,
    Attribute(u32),
    AttributeMark,
    // the first block of an image file; a later one or the file's mark
    FirstImage,
    Image,
    // behind the mark of an image file: the first trailer, or a second mark, which ends the reel
    BehindImage,
    // where a reel goes on behind an image block: an image block or the first trailer
    Resumed,
    // the trailer record of a number; the mark behind the trailers
    Trailer(u32),
    TrailerMark,
    // behind the mark of a trailer file: the next header, or a second mark, which ends the reel
    BehindTrailer,
    // the third mark that closes a set of several reels
    LastMark,
    // no block: the reel is over
    End(Option<Onward>),
}

// A group of files: what its header says, where its header and its first trailer stand, how many image blocks it has, and how many of them
// stand on each reel and the reels before it.
#[derive(Clone, Copy)]
pub struct Group {
    pub content: Content,
    pub trailers: u32,
    pub header: Place,
    pub trailer: Place,
    pub blocks: u32,
    pub through: [u32; MOST_REELS],
}

impl Group {
    // A group that a header begins.
    pub(crate) fn begun_by(header: Header, at: Place) -> Self
        ensures { result ≡ fresh header at }
    {
        Group {
            content: header.content,
            trailers: header.trailers,
            header: at,
            trailer: at,
            blocks: 0,
            through: [0; MOST_REELS],
        }
    }
}

// `Steady` stands in the contracts of the steps and not here as an invariant: anyone may set the fields, and `new` takes any number of reels.
// Each private step promises it too, since `step` has it from the one that it ends in.
#[derive(Clone, Copy)]
pub struct Machine {
    // the deck's reels
    pub reels: u32,
    pub expect: Expect,
    // the first directory, and what it says
    pub directory: [u8; DIRECTORY_LENGTH],
    pub layout: Layout,
    // the group that is read, and those that have been read: a table and a count, since an `ArrayVec` is not `Copy`, as this public type is
    pub group: Group,
    pub groups: usize,
    pub table: [Group; MOST_BANDS],
    // the bands that their headers name
    pub bands: Bands,
}
