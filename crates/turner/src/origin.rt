// Where the body of a piece comes from.
ghost use Rattle.std.specs.Prelude.{◌≡◌};
ghost use Rattle.reader.specs.Finding.{band_file};
ghost use Rattle.turner.specs.Changes.{code_at};
ghost use Rattle.turner.specs.Shapes.{plan};
ghost use Rattle.turner.specs.Shown.{code_of, line_of, line_origin, origin_at, record_spot, attribute_type, recipe_of, recipe, sheet, source};

use super::piece::Piece;
use super::shape::{Order, Turning};
use super::source::{Origin, Source};
use machine::Place;
use reader::{Spot, band_file, codes, line_spot};
use records::{ANCILLARY, ANNOTATION, DIRECTORY, DIRECTORY_LENGTH, HEADER, IMAGE, TRAILER};

// Where a record of a number stands, of those that follow one another from a place on.
fn record_spot(first: Place, number: u32) -> Spot
    ensures { result ≡ record_spot first number }
{
    Spot {
        reel: first.reel,
        block: first.block as u64 + number.saturating_sub(1) as u64,
    }
}

// A record below, if it has a place.
fn origin_at(spot: Option<Spot>) -> Origin
    ensures { result ≡ origin_at spot }
{
    match spot {
        Some(spot) => Origin::Below(spot),
        None => Origin::Nowhere,
    }
}

impl Turning {
    // The code of the band at a place among those present.
    pub(crate) fn code_at(&self, place: u32) -> u8
        ensures { result ≡ code_at self.now.accepted place }
    {
        codes(&self.accepted.summary.bands)
            .get(place as usize)
            .copied()
            .unwrap_or(0)
    }

    // The band of an image block of a group.
    fn code_of(&self, group: u32, block: u32) -> u8
        ensures { result ≡ code_of self.now.order self.now.accepted group block }
    {
        match self.order {
            Order::ByLine => {
                4 + (block.saturating_sub(1) % self.accepted.summary.layout.stride()) as u8
            }
            Order::ByBand => self.code_at(group),
        }
    }

    // The line of an image block.
    fn line_of(&self, block: u32) -> u32
        ensures { result ≡ line_of self.now.order self.now.accepted block }
    {
        match self.order {
            Order::ByLine => block.saturating_sub(1) / self.accepted.summary.layout.stride() + 1,
            Order::ByBand => block,
        }
    }

    // The type of an attribute record behind the header.
    fn attribute_type(&self, number: u32) -> u8
        ensures { result ≡ attribute_type (plan self.now) number }
    {
        if number <= 1 + self.accepted.summary.layout.ancillaries() {
            ANCILLARY
        } else {
            ANNOTATION
        }
    }

    // Where a line of a band comes from: a band that is not present has zeros.
    fn line_origin(&self, band: u8, line: u32) -> Origin
        ensures { result ≡ line_origin (plan self.now) (band_file self.now.accepted band) line }
    {
        match band_file(&self.accepted, band) {
            Some(file) => origin_at(line_spot(&file, self.accepted.summary.layout, line)),
            None => Origin::Zero,
        }
    }

    // A record of the length of every record but a directory.
    fn record(&self, kind: u8, number: u32, origin: Origin) -> Source
        ensures { recipe_of result ≡ sheet (plan self.now) kind number origin }
    {
        Source {
            kind,
            number,
            size: self.accepted.summary.layout.form.record_length(),
            origin,
        }
    }

    // The record of a piece. A mark has none.
    pub(crate) fn source_of(&self, piece: Piece) -> Option<Source>
        ensures { recipe result ≡ source (plan self.now) piece }
    {
        let group = self.first_group();
        match piece {
            Piece::Mark => None,
            Piece::Directory => Some(Source {
                kind: DIRECTORY,
                number: 1,
                size: DIRECTORY_LENGTH,
                origin: Origin::Below(Spot { reel: 1, block: 1 }),
            }),
            Piece::Header(_) => {
                Some(self.record(HEADER, 1, Origin::Below(record_spot(group.header, 1))))
            }
            Piece::Attribute(number) => Some(self.record(
                self.attribute_type(number),
                number,
                Origin::Below(record_spot(group.header, number)),
            )),
            Piece::Image(place, number) => Some(self.record(
                IMAGE,
                number,
                self.line_origin(self.code_of(place, number), self.line_of(number)),
            )),
            Piece::Trailer(number) => Some(self.record(
                TRAILER,
                number,
                Origin::Below(record_spot(group.trailer, number)),
            )),
        }
    }
}
