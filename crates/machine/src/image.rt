// Image files: their lines, and the trailers behind them.
ghost use Rattle.std.specs.Prelude.{◌≡◌, ◌<◌, ◌≤◌, length, drop, OnOk, slice_index_or};
ghost use Rattle.records.specs.Layouts.{stride};
ghost use Rattle.machine.specs.Machines.{Steady, stepped, set_stepped, all_zero, most_blocks, missing, one_more, line, on_image, on_bad_line, no_group, lines_agree, behind_trailer, on_first_trailer, on_trailer, on_resumed};

use super::machine::{Expect, Group, Machine, Place};
use records::{Cause, Content, Form, IMAGE, SetFault, TRAILER, present};

// The most lines of a band.
const MOST_LINES: u32 = 8192;

// Whether every byte of a body is zero. The bits of all are gathered and asked for once, which is quicker than to ask at each byte.
fn all_zero(body: &[u8]) -> bool
    ensures { result ≡ all_zero body.now }
{
    body.iter().fold(0, |all, byte| all | *byte) == 0
}

// The same of a record's body, which begins with its seventh byte.
#[tactic(auto, using(std::proofs::lemmas::List::take_rest))]
fn zero_body(bytes: &[u8]) -> bool
    requires { 6 ≤ length bytes.now }
    ensures { result ≡ all_zero (drop 6 bytes.now) }
{
    all_zero(&bytes[6..])
}

impl Group {
    // One image block more on a reel. There are nine reels at most. The index is tested, since no proof knows the elements behind an array's
    // `get_mut`.
    fn add_block(&mut self, reel: u32)
        requires { self.old.blocks < 4294967295 }
        ensures { self.new ≡ one_more self.old reel }
    {
        self.blocks += 1;
        let index = reel.saturating_sub(1) as usize;
        if index < self.through.len() {
            self.through[index] = self.blocks;
        }
    }
}

impl Machine {
    // Whether the next image block is of a band that is not present.
    fn misses(&self) -> bool
        ensures { result ≡ missing self.now.group.content self.now.group.blocks (stride self.now.layout) }
    {
        match self.group.content {
            Content::One(_) => false,
            Content::Mixed(mask) => !present(mask, self.group.blocks % self.layout.stride()),
        }
    }

    fn most_blocks(&self) -> u32
        ensures { result ≡ most_blocks self.now.layout.form (stride self.now.layout) }
    {
        match self.layout.form {
            Form::Interleaved => MOST_LINES * self.layout.stride(),
            Form::Sequential | Form::Vidicon => MOST_LINES,
        }
    }

    // One more line; `zero` says whether its body is all zero.
    fn line(&mut self, at: Place, zero: bool) -> Result<(), SetFault>
        ensures says { set_stepped result self.new ≡ line self.old at zero }
        ensures stays_steady { Steady self.old → OnOk result (Steady self.new) }
    {
        if self.group.blocks >= self.most_blocks() {
            return Err(SetFault::Lines);
        }
        if self.misses() && !zero {
            return Err(SetFault::MissingBand);
        }
        self.group.add_block(at.reel);
        self.expect = Expect::Image;
        Ok(())
    }

    // An image record.
    pub(crate) fn image(&mut self, at: Place, bytes: &[u8]) -> Result<(), Cause>
        ensures says { stepped result self.new ≡ on_image self.old at bytes.now }
        ensures stays_steady { Steady self.old → OnOk result (Steady self.new) }
    {
        let number = u64::from(self.group.blocks) + 1;
        self.check(bytes, IMAGE, number)?;
        let zero = !self.misses() || zero_body(bytes);
        self.line(at, zero)?;
        Ok(())
    }

    // A bad block in an image file.
    pub(crate) fn bad_line(&mut self, at: Place) -> Result<(), Cause>
        ensures says { stepped result self.new ≡ on_bad_line self.old at }
        ensures stays_steady { Steady self.old → OnOk result (Steady self.new) }
    {
        self.line(at, false)?;
        Ok(())
    }

    // Whether the image file has as many blocks as it must have.
    fn lines_agree(&self) -> bool
        ensures { result ≡ lines_agree self.now.layout.form (stride self.now.layout) self.now.groups (slice_index_or self.now.table 0 no_group).blocks self.now.group.blocks }
    {
        match self.layout.form {
            Form::Interleaved => self.group.blocks % self.layout.stride() == 0,
            Form::Sequential => self.groups == 0 || self.group.blocks == self.table[0].blocks,
            Form::Vidicon => true,
        }
    }

    fn behind_trailer(&self, number: u32) -> Expect
        ensures { result ≡ behind_trailer self.now number }
    {
        if number < self.group.trailers {
            Expect::Trailer(number + 1)
        } else {
            Expect::TrailerMark
        }
    }

    // The first trailer, which closes the count of lines.
    pub(crate) fn first_trailer(&mut self, at: Place, bytes: &[u8]) -> Result<(), Cause>
        ensures says { stepped result self.new ≡ on_first_trailer self.old at bytes.now }
        ensures stays_steady { Steady self.old → OnOk result (Steady self.new) }
    {
        self.check(bytes, TRAILER, 1)?;
        if !self.lines_agree() {
            return Err(SetFault::Lines.into());
        }
        self.group.trailer = at;
        self.expect = self.behind_trailer(1);
        Ok(())
    }

    pub(crate) fn trailer(&mut self, number: u32, bytes: &[u8]) -> Result<(), Cause>
        ensures says { stepped result self.new ≡ on_trailer self.old number bytes.now }
        ensures stays_steady { Steady self.old → OnOk result (Steady self.new) }
    {
        self.check(bytes, TRAILER, u64::from(number))?;
        self.expect = self.behind_trailer(number);
        Ok(())
    }

    // The first record of a reel that goes on behind an image block: its type tells whether the image file does.
    pub(crate) fn resumed(&mut self, at: Place, bytes: &[u8]) -> Result<(), Cause>
        ensures says { stepped result self.new ≡ on_resumed self.old at bytes.now }
        ensures stays_steady { Steady self.old → OnOk result (Steady self.new) }
    {
        match bytes.get(5) {
            Some(&TRAILER) => self.first_trailer(at, bytes),
            _ => self.image(at, bytes),
        }
    }
}
