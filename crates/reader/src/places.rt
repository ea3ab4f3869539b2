// Where the lines and sheets of an accepted set stand.
ghost use Rattle.std.specs.Prelude.{◌≡◌, ◌<◌, ◌≤◌, length, take, ok_or, IfSome};
ghost use Rattle.reader.specs.Finding.{index_of, band_file, image_on, line_spot, sheet_kind, sheet_spot};

use super::refusal::CallerFault;
use machine::{Accepted, Group};
use records::{Bands, Form, Layout};

// A block of a reel, both counted from 1.
#[derive(Clone, Copy, PartialEq, Eq, Debug)]
pub struct Spot {
    pub reel: u32,
    pub block: u64,
}

// The image file that holds a band, and how the band's lines lie in it: line n is image block (n - 1) * stride + first.
#[derive(Clone, Copy)]
pub struct BandFile {
    pub group: Group,
    pub stride: u32,
    pub first: u32,
}

// At which place, counted from 0, a code stands among others.
fn index_in(codes: &[u8], code: u8) -> Option<usize>
    ensures finds { result ≡ index_of code codes.now 0 }
    ensures within { IfSome result (λ i. i < length codes.now) }
{
    codes.iter().position(|c| *c == code)
}

// The codes of the bands present.
pub fn codes(bands: &Bands) -> &[u8]
    ensures is { result.now ≡ take bands.now.count bands.now.codes }
    ensures few { length result.now ≤ 5 }
{
    &bands.codes[..bands.count.min(5)]
}

// The image file of a band, if the band is present. Each number is answered. The table of places is the survey's, of a fixed size beside the codes:
// no heap.
pub fn band_file(accepted: &Accepted, code: u8) -> Option<BandFile>
    ensures { result ≡ band_file accepted.now code }
{
    let place = index_in(codes(&accepted.summary.bands), code)?;
    let layout = accepted.summary.layout;
    Some(match layout.form {
        Form::Interleaved => BandFile {
            group: accepted.places.table[0],
            stride: layout.stride(),
            first: u32::from(code).saturating_sub(3),
        },
        Form::Sequential => BandFile {
            group: accepted.places.table[place],
            stride: 1,
            first: 1,
        },
        Form::Vidicon => BandFile {
            group: accepted.places.table[0],
            stride: 1,
            first: 1,
        },
    })
}

// The widenings by `as`, here and below: `u64::from` leaves the proofs of their sums open.
// On which reel image block k of a file stands, and which of that reel's image blocks it is.
fn image_on(through: &[u32; 9], k: u64) -> Option<Spot>
    ensures finds { result ≡ image_on k 0 1 through.now }
    ensures small { IfSome result (λ s. s.block < 4294967296) }
{
    let i = through.iter().position(|end| k <= *end as u64)?;
    let before = if i == 0 { 0 } else { through[i - 1] };
    Some(Spot {
        reel: i as u32 + 1,
        block: k - before as u64,
    })
}

// Where a line of a band stands.
pub fn line_spot(file: &BandFile, layout: Layout, line: u32) -> Option<Spot>
    ensures { result ≡ line_spot file.now layout line }
{
    let k = line.saturating_sub(1) as u64 * file.stride as u64 + file.first as u64;
    let on = image_on(&file.group.through, k)?;
    let header = file.group.header;
    let block = if on.reel == header.reel {
        header.block as u64 + layout.attributes() as u64 + on.block
    } else {
        2 + on.block
    };
    Some(Spot {
        reel: on.reel,
        block,
    })
}

// The kinds of sheets.
enum SheetKind {
    Header,
    Ancillary,
    Annotation,
    Trailer,
}

impl TryFrom<u8> for SheetKind {
    type Error = CallerFault;

    ghost try_from_gives = { λ kind r. r ≡ sheet_kind kind };

    fn try_from(kind: u8) -> Result<SheetKind, CallerFault> {
        match kind {
            1 => Ok(SheetKind::Header),
            2 => Ok(SheetKind::Ancillary),
            3 => Ok(SheetKind::Annotation),
            4 => Ok(SheetKind::Trailer),
            _ => Err(CallerFault::Sheet),
        }
    }
}

// Where a sheet stands, if there is such a sheet.
pub(crate) fn sheet_spot(
    group: &Group,
    layout: Layout,
    kind: u8,
    index: u32,
) -> Result<Spot, CallerFault>
    ensures { result ≡ ok_or (sheet_spot group.now layout kind index) CallerFault.Sheet }
{
    let header = group.header;
    let ancillaries = layout.ancillaries();
    let (place, many, behind) = match SheetKind::try_from(kind)? {
        SheetKind::Header => (header, 1, 0),
        SheetKind::Ancillary => (header, ancillaries, 1),
        SheetKind::Annotation => (header, layout.annotations(), ancillaries + 1),
        SheetKind::Trailer => (group.trailer, group.trailers, 0),
    };
    if !(1..=many).contains(&index) {
        return Err(CallerFault::Sheet);
    }
    Ok(Spot {
        reel: place.reel,
        block: place.block as u64 + behind as u64 + (index as u64 - 1),
    })
}
