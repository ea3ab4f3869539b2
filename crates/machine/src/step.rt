// One block more: what the machine does with each, by what it expects.
ghost use Rattle.std.specs.Prelude.{◌≡◌, length, Ok, OnOk};
ghost use Rattle.records.specs.Directories.{first_directory};
ghost use Rattle.records.specs.Layouts.{record_length};
ghost use Rattle.records.specs.Records.{checked, recorded};
ghost use Rattle.machine.specs.Machines.{Steady, stepped, set_stepped, block_of, decked, deck_says, record_says, refusal, unexpected, first, later, on_directory, on_header, on_attribute, next_group, ends_in_image, ends_behind_trailer, expecting, closed, step};

use super::machine::{Expect, Group, Machine, Onward, Place};
use deck::Kind;
use records::{
    ANCILLARY, ANNOTATION, Cause, Content, DIRECTORY, DIRECTORY_LENGTH, DeckFault, Form, HEADER,
    RecordFault, SetFault, check, first_directory, read_header, same_directory,
};

// Place and bytes are two parameters: a struct of both would be made in each arm of `step`, only to be taken apart in each method.
impl Machine {
    // The checks of a record that is no directory.
    pub(crate) fn check(&self, bytes: &[u8], kind: u8, number: u64) -> Result<(), RecordFault>
        ensures says { recorded result ≡ checked bytes.now (record_length self.now.layout.form) kind number }
        ensures long { OnOk result (length bytes.now ≡ record_length self.now.layout.form) }
    {
        check(bytes, self.layout.form.record_length(), kind, number)
    }

    fn first(
        &mut self,
        bytes: &[u8; DIRECTORY_LENGTH],
        onward: Option<Onward>,
    ) -> Result<(), SetFault>
        ensures says { set_stepped result self.new ≡ first self.old onward bytes.now (first_directory bytes.now self.old.reels) }
        ensures stays_steady { Steady self.old → OnOk result (Steady self.new) }
    {
        let layout = first_directory(bytes, self.reels).ok_or(SetFault::Directory)?;
        self.directory = *bytes;
        self.layout = layout;
        self.expect = Expect::DirectoryMark(onward);
        Ok(())
    }

    fn later(
        &mut self,
        at: Place,
        bytes: &[u8; DIRECTORY_LENGTH],
        onward: Option<Onward>,
    ) -> Result<(), SetFault>
        ensures says { set_stepped result self.new ≡ later self.old at onward bytes.now }
        ensures stays_steady { Steady self.old → OnOk result (Steady self.new) }
    {
        if !same_directory(&self.directory, bytes) {
            return Err(SetFault::OtherDirectory);
        }
        if u64::from(bytes[18]) != u64::from(b'0') + u64::from(at.reel) {
            return Err(SetFault::Directory);
        }
        self.expect = Expect::DirectoryMark(onward);
        Ok(())
    }

    fn directory(&mut self, at: Place, bytes: &[u8], onward: Option<Onward>) -> Result<(), Cause>
        ensures says { stepped result self.new ≡ on_directory self.old at onward bytes.now }
        ensures stays_steady { Steady self.old → OnOk result (Steady self.new) }
    {
        check(bytes, DIRECTORY_LENGTH, DIRECTORY, 1)?;
        // Copied and not lent: `first_chunk` was tried, and four clauses of the contract stay open.
        let mut directory = [0; DIRECTORY_LENGTH];
        directory.copy_from_slice(bytes);
        if at.reel == 1 {
            self.first(&directory, onward)?;
        } else {
            self.later(at, &directory, onward)?;
        }
        Ok(())
    }

    fn header(&mut self, at: Place, bytes: &[u8]) -> Result<(), Cause>
        ensures says { stepped result self.new ≡ on_header self.old at bytes.now }
        ensures stays_steady { Steady self.old → OnOk result (Steady self.new) }
    {
        self.check(bytes, HEADER, 1)?;
        // 0 where no band came before, as `read_header` takes any byte.
        let last = match self.group.content {
            Content::One(band) => band,
            Content::Mixed(_) => 0,
        };
        let header = read_header(bytes, self.layout, last)?;
        self.group = Group::begun_by(header, at);
        self.bands.add_all(header.content);
        self.expect = Expect::Attribute(2);
        Ok(())
    }

    fn attribute(&mut self, number: u32, bytes: &[u8]) -> Result<(), Cause>
        ensures says { stepped result self.new ≡ on_attribute self.old number bytes.now }
        ensures stays_steady { Steady self.old → OnOk result (Steady self.new) }
    {
        let kind = if number <= 1 + self.layout.ancillaries() {
            ANCILLARY
        } else {
            ANNOTATION
        };
        self.check(bytes, kind, u64::from(number))?;
        self.expect = if number < self.layout.attributes() {
            Expect::Attribute(number + 1)
        } else {
            Expect::AttributeMark
        };
        Ok(())
    }

    // Behind the mark of a trailer file a record is the next header, where bands follow each other.
    fn next_group(&mut self, at: Place, bytes: &[u8]) -> Result<(), Cause>
        ensures says { stepped result self.new ≡ next_group self.old.layout.form self.old at bytes.now }
        ensures stays_steady { Steady self.old → OnOk result (Steady self.new) }
    {
        match self.layout.form {
            Form::Sequential => self.header(at, bytes),
            Form::Interleaved | Form::Vidicon => Err(RecordFault::RecordForMark.into()),
        }
    }

    // A second mark behind an image file: the reel is over, and another goes on.
    fn end_in_image(&mut self, at: Place) -> Result<(), SetFault>
        ensures says { set_stepped result self.new ≡ ends_in_image self.old at }
        ensures stays_steady { Steady self.old → OnOk result (Steady self.new) }
    {
        if at.reel >= self.reels {
            return Err(SetFault::Finish);
        }
        self.expect = Expect::End(Some(Onward::Image));
        Ok(())
    }

    // A second mark behind a trailer file: the reel is over, and on the last reel the set.
    fn end_behind_trailer(&mut self, at: Place) -> Result<(), SetFault>
        ensures says { set_stepped result self.new ≡ ends_behind_trailer self.old at }
        ensures stays_steady { Steady self.old → OnOk result (Steady self.new) }
    {
        self.expect = if at.reel < self.reels {
            match self.layout.form {
                Form::Sequential => Expect::End(Some(Onward::Header)),
                Form::Interleaved | Form::Vidicon => return Err(SetFault::Finish),
            }
        } else if self.reels == 1 {
            Expect::End(None)
        } else {
            Expect::LastMark
        };
        Ok(())
    }

    // The group that is read joins those that have been read. Bands rise, so there are no more than five. The index is tested, since no proof knows
    // the elements behind an array's `get_mut`.
    fn close_group(&mut self) -> Result<(), Cause>
        ensures says { stepped result self.new ≡ Ok (expecting (closed self.old) Expect.BehindTrailer) }
        ensures stays_steady { Steady self.old → OnOk result (Steady self.new) }
    {
        if self.groups < self.table.len() {
            self.table[self.groups] = self.group;
            self.groups += 1;
        }
        self.turn(Expect::BehindTrailer)
    }

    // Takes the block that came by what was expected, and expects the next.
    pub fn step(&mut self, at: Place, seen: Option<Kind<&[u8]>>) -> Result<(), Cause>
        ensures says { stepped result self.new ≡ step self.old at (block_of seen.entry) }
        ensures stays_steady { Steady self.old → OnOk result (Steady self.new) }
    {
        // What is not expected has an arm for each state: as one last arm for all it was tried, and the clause `says` stays open there.
        match (self.expect, seen) {
            (Expect::Directory(onward), Some(Kind::Record(bytes))) => self.directory(
                at, bytes, onward,
            ),
            (Expect::Directory(_), other) => unexpected(other),
            (Expect::DirectoryMark(Some(Onward::Image)), Some(Kind::Mark)) => self.turn(
                Expect::Resumed,
            ),
            (Expect::DirectoryMark(_), Some(Kind::Mark)) => self.turn(Expect::Header),
            (Expect::DirectoryMark(_), other) => unexpected(other),
            (Expect::Header, Some(Kind::Record(bytes))) => self.header(at, bytes),
            (Expect::Header, other) => unexpected(other),
            (Expect::Attribute(number), Some(Kind::Record(bytes))) => self.attribute(number, bytes),
            (Expect::Attribute(_), other) => unexpected(other),
            (Expect::AttributeMark, Some(Kind::Mark)) => self.turn(Expect::FirstImage),
            (Expect::AttributeMark, other) => unexpected(other),
            (Expect::FirstImage | Expect::Image, Some(Kind::Record(bytes))) => self.image(
                at, bytes,
            ),
            (Expect::FirstImage | Expect::Image | Expect::Resumed, Some(Kind::Bad)) =>
                self.bad_line(at),
            (Expect::FirstImage, other) => unexpected(other),
            (Expect::Image, Some(Kind::Mark)) => self.turn(Expect::BehindImage),
            (Expect::Image, other) => unexpected(other),
            (Expect::BehindImage, Some(Kind::Record(bytes))) => self.first_trailer(at, bytes),
            (Expect::BehindImage, Some(Kind::Mark)) => Ok(self.end_in_image(at)?),
            (Expect::BehindImage, other) => unexpected(other),
            (Expect::Resumed, Some(Kind::Record(bytes))) => self.resumed(at, bytes),
            (Expect::Resumed, other) => unexpected(other),
            (Expect::Trailer(number), Some(Kind::Record(bytes))) => self.trailer(number, bytes),
            (Expect::Trailer(_), other) => unexpected(other),
            (Expect::TrailerMark, Some(Kind::Mark)) => self.close_group(),
            (Expect::TrailerMark, other) => unexpected(other),
            (Expect::BehindTrailer, Some(Kind::Record(bytes))) => self.next_group(at, bytes),
            (Expect::BehindTrailer, Some(Kind::Mark)) => Ok(self.end_behind_trailer(at)?),
            (Expect::BehindTrailer, other) => unexpected(other),
            (Expect::LastMark, Some(Kind::Mark)) => self.turn(Expect::End(None)),
            (Expect::LastMark, other) => unexpected(other),
            (Expect::End(onward), None) => self.turn(Expect::Directory(onward)),
            (Expect::End(_), _) => Err(SetFault::BehindEnd.into()),
        }
    }

    fn turn(&mut self, expect: Expect) -> Result<(), Cause>
        ensures says { stepped result self.new ≡ Ok (expecting self.old expect) }
        ensures stays_steady { Steady self.old → OnOk result (Steady self.new) }
    {
        self.expect = expect;
        Ok(())
    }
}

// A block that the deck should not show there.
fn deck_layer(seen: Option<Kind<&[u8]>>) -> Result<(), DeckFault>
    ensures { decked result ≡ deck_says (block_of seen.entry) }
{
    match seen {
        None => Err(DeckFault::Absent),
        Some(Kind::Bad) => Err(DeckFault::Bad),
        Some(Kind::Mark | Kind::Record(_)) => Ok(()),
    }
}

// A mark for a record, or a record for a mark.
fn record_layer(seen: Option<Kind<&[u8]>>) -> Result<(), RecordFault>
    ensures { recorded result ≡ record_says (block_of seen.entry) }
{
    match seen {
        Some(Kind::Record(_)) => Err(RecordFault::RecordForMark),
        Some(Kind::Mark) => Err(RecordFault::MarkForRecord),
        Some(Kind::Bad) | None => Ok(()),
    }
}

// A block that is not expected, by the layer that it is a fault of.
fn unexpected(seen: Option<Kind<&[u8]>>) -> Result<(), Cause>
    ensures { refusal result ≡ unexpected (block_of seen.entry) }
{
    deck_layer(seen)?;
    record_layer(seen)?;
    Ok(())
}
