// The machine before its first block, and what it has found behind the last.
ghost use Rattle.std.specs.Prelude.{◌≡◌};
ghost use Rattle.machine.specs.Findings.{start, lines_of, accepted};

use super::machine::{Expect, Group, Machine, Onward, Place};
use records::{Bands, Content, Correction, DIRECTORY_LENGTH, Form, Header, Layout, MOST_BANDS};

// What an accepted set is a picture of.
#[derive(Clone, Copy)]
pub struct Summary {
    pub layout: Layout,
    // the scene identification
    pub ident: [u8; 18],
    pub bands: Bands,
    // how many lines each band has
    pub lines: u32,
}

// Where the records of an accepted set lie, group by group.
// A count stands beside the table: an `ArrayVec` is not `Copy`, as this public type is, and callers may set the fields.
#[derive(Clone, Copy)]
pub struct Places {
    pub groups: usize,
    pub table: [Group; MOST_BANDS],
}

#[derive(Clone, Copy)]
pub struct Accepted {
    pub summary: Summary,
    pub places: Places,
}

impl Machine {
    // A machine that expects the first directory of so many reels.
    // Its group and layout are made up until the first are read: the fields are public, and an Option would ask more of callers.
    pub fn new(reels: u32) -> Self
        ensures { result ≡ start reels }
    {
        let nothing = Header {
            content: Content::One(0),
            trailers: 0,
        };
        let group = Group::begun_by(nothing, Place { reel: 0, block: 0 });
        Machine {
            reels,
            expect: Expect::Directory(Some(Onward::Header)),
            directory: [0; DIRECTORY_LENGTH],
            layout: Layout {
                form: Form::Sequential,
                mission: 1,
                correction: Correction::Corrected,
            },
            group,
            groups: 0,
            table: [group; MOST_BANDS],
            bands: Bands::new(),
        }
    }

    // How many lines each band has.
    fn lines(&self) -> u32
        ensures { result ≡ lines_of self.now }
    {
        match self.layout.form {
            Form::Interleaved => self.group.blocks / self.layout.stride(),
            Form::Sequential | Form::Vidicon => self.group.blocks,
        }
    }

    // What has been read, where all of it was in order.
    pub fn accepted(&self) -> Accepted
        ensures { result ≡ accepted self.now }
    {
        // Copied, since the contract stays open where `first_chunk` lends it.
        let mut ident = [0; 18];
        ident.copy_from_slice(&self.directory[34..52]);
        Accepted {
            summary: Summary {
                layout: self.layout,
                ident,
                bands: self.bands,
                lines: self.lines(),
            },
            places: Places {
                groups: self.groups,
                table: self.table,
            },
        }
    }
}
