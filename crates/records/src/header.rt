// The header, the first record of an attributes file.
ghost use Rattle.std.specs.Prelude.{◌≡◌};
ghost use Rattle.records.specs.Headers.{counts_fit, band_fits, trailers_fit, bands_fit, content_of, header, headed, SequentialBand};

use super::fault::SetFault;
use super::layout::{Form, Layout};
use super::record::byte_at;

// Which bands an image file holds: one, by its code, or several interleaved, by the header's byte of bands present.
// Both are a `u8`, since the fields are public and callers may set them to any byte.
#[derive(Clone, Copy, PartialEq, Eq, Debug)]
pub enum Content {
    One(u8),
    Mixed(u8),
}

// What a header says of its group: the bands of its image file, and how many records its trailer file has.
#[derive(Clone, Copy)]
pub struct Header {
    pub content: Content,
    pub trailers: u32,
}

// How many annotation and ancillary records there are, and how the lines are interleaved.
fn counts_fit(bytes: &[u8], layout: Layout) -> bool
    ensures { result ≡ counts_fit bytes.now layout }
{
    let interleaved = match layout.form {
        Form::Interleaved => layout.stride(),
        Form::Sequential | Form::Vidicon => 0,
    };
    byte_at(bytes, 100) == 0
        && u32::from(byte_at(bytes, 101)) == layout.annotations()
        && byte_at(bytes, 104) == 0
        && u32::from(byte_at(bytes, 105)) == layout.ancillaries()
        && byte_at(bytes, 119) == layout.form.order_byte()
        && u32::from(byte_at(bytes, 120)) == interleaved
}

// The band that the header names. In a sequential set it is above that of the header before.
fn band_fits(band: u8, layout: Layout, last: u8) -> bool
    ensures { result ≡ band_fits band layout last }
{
    match layout.form {
        Form::Interleaved => band == b'0',
        Form::Sequential => {
            (matches!(band, b'4'..=b'7') || band == b'8' && layout.mission == 3)
                && u32::from(last) + u32::from(b'0') < u32::from(band)
        }
        Form::Vidicon => matches!(band, b'A'..=b'D'),
    }
}

// A number of trailers from 1 to 5.
fn trailers_fit(bytes: &[u8]) -> bool
    ensures { result ≡ trailers_fit bytes.now }
{
    byte_at(bytes, 143) == 0 && matches!(byte_at(bytes, 144), 1..=5)
}

// Of interleaved bands at least one is present, and the fifth only where the mission has it.
fn bands_fit(mask: u8, layout: Layout) -> bool
    ensures { result ≡ bands_fit mask layout }
{
    match layout.form {
        Form::Interleaved => matches!(mask, 1..=31) && (layout.mission == 3 || mask % 2 == 0),
        Form::Sequential | Form::Vidicon => true,
    }
}

fn content_of(band: u8, mask: u8, form: Form) -> Content
    requires { SequentialBand form band }
    ensures { result ≡ content_of band mask form }
{
    match form {
        Form::Interleaved => Content::Mixed(mask),
        Form::Sequential => Content::One(band - b'0'),
        Form::Vidicon => Content::One(band),
    }
}

// The values of a header, checked in the order of their bytes.
// `last` is 0 where no band came before: it is a public parameter, and may be any byte.
#[tactic(auto, unfolding(crate::specs::Headers::header))]
pub fn read_header(bytes: &[u8], layout: Layout, last: u8) -> Result<Header, SetFault>
    ensures { headed result ≡ header bytes.now layout last }
{
    let band = byte_at(bytes, 135);
    let mask = byte_at(bytes, 3585);
    if !counts_fit(bytes, layout) {
        return Err(SetFault::Header);
    }
    if !band_fits(band, layout, last) {
        return Err(SetFault::Bands);
    }
    if !trailers_fit(bytes) {
        return Err(SetFault::Header);
    }
    if !bands_fit(mask, layout) {
        return Err(SetFault::Bands);
    }
    Ok(Header {
        content: content_of(band, mask, layout.form),
        trailers: u32::from(byte_at(bytes, 144)),
    })
}
