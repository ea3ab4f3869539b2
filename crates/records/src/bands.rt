// The bands that are present, and the byte by which a header tells them.
ghost use Rattle.std.specs.Prelude.{◌≡◌, ◌+◌, ◌<◌};
ghost use Rattle.records.specs.Bands.{weight, present, one_band, more_bands, no_bands};

use super::header::Content;

// The most bands of a set.
pub const MOST_BANDS: usize = 5;

// The codes of the bands present, in rising order: 4 to 8, or a vidicon's letter.
// A count stands beside an array: an `ArrayVec` is not `Copy`, as this public type is, and callers may set the fields.
#[derive(Clone, Copy)]
pub struct Bands {
    pub count: usize,
    pub codes: [u8; MOST_BANDS],
}

// The bit of the band at a place among 4 to 8, in the byte of bands present. The place is a public parameter, and may be any number.
pub fn weight(place: u32) -> u8
    ensures { result ≡ weight place }
{
    match place {
        0 => 16,
        1 => 8,
        2 => 4,
        3 => 2,
        _ => 1,
    }
}

// Whether the band at a place is present.
pub fn present(mask: u8, place: u32) -> bool
    ensures { result ≡ present mask place }
{
    mask / weight(place) % 2 == 1
}

// The code of the scanner's band at a place.
fn code_at(place: u8) -> u8
    requires { place < 5 }
    ensures { result ≡ 4 + place }
{
    4 + place
}

impl Bands {
    pub fn new() -> Self
        ensures { result ≡ no_bands }
    {
        Bands {
            count: 0,
            codes: [0; MOST_BANDS],
        }
    }

    // One band more. There are never more than five. The index is tested, since no proof knows the elements behind an array's `get_mut`.
    fn add(&mut self, code: u8)
        ensures { self.new ≡ one_band code self.old }
    {
        if self.count < self.codes.len() {
            self.codes[self.count] = code;
            self.count += 1;
        }
    }

    // The bands of an image file, after those of the files before.
    pub fn add_all(&mut self, content: Content)
        ensures { self.new ≡ more_bands content self.old }
    {
        match content {
            Content::One(code) => self.add(code),
            Content::Mixed(mask) => {
                for place in 0..5u8 {
                    if present(mask, u32::from(place)) {
                        self.add(code_at(place));
                    }
                }
            }
        }
    }
}
