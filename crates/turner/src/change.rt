// What is written into a directory and a header to tell the order that is shown.
ghost use Rattle.std.specs.Prelude.{◌≡◌, ◌≤◌, length};
ghost use Rattle.turner.specs.Changes.{put, order_byte, directory_changed, header_by_line, header_by_band, header_changed, mask_of, changed};
ghost use Rattle.turner.specs.Shapes.{plan};

use super::piece::Piece;
use super::shape::{Order, Turning};
use reader::codes;
use records::weight;

// Writes a byte of a record, counted from 1, of which the body is given, from its seventh byte on.
fn put(body: &mut [u8], byte: usize, value: u8)
    ensures { body.new ≡ put body.old byte value }
{
    // by an index, since of a slice that is written through `get_mut` a proof knows no more than the length
    let index = byte.saturating_sub(7);
    if index < body.len() {
        body[index] = value;
    }
}

// The byte that tells the order. A form has the same one, but an order's form would be a match as long as this.
fn order_byte(order: Order) -> u8
    ensures { result ≡ order_byte order }
{
    match order {
        Order::ByLine => 255,
        Order::ByBand => 0,
    }
}

// The byte of the bands present: the bit of each code.
fn mask_of(codes: &[u8]) -> u8
    requires { length codes.now ≤ 5 }
    ensures { result ≡ mask_of codes.now }
{
    codes
        .iter()
        .map(|code| weight((*code as u32).saturating_sub(4)))
        .sum()
}

// A directory is that of reel 1 of 1.
fn change_directory(order: Order, body: &mut [u8])
    ensures { body.new ≡ directory_changed order body.old }
{
    put(body, 19, b'1');
    put(body, 20, b'1');
    put(body, 31, order_byte(order));
}

// The header of interleaved bands.
fn change_by_line(bands: u8, mask: u8, body: &mut [u8])
    ensures { body.new ≡ header_by_line bands mask body.old }
{
    put(body, 120, 255);
    put(body, 121, bands);
    put(body, 136, b'0');
    put(body, 3586, mask);
}

// The header of one band.
fn change_by_band(digit: u8, body: &mut [u8])
    ensures { body.new ≡ header_by_band digit body.old }
{
    put(body, 120, 0);
    put(body, 121, 0);
    put(body, 136, digit);
}

impl Turning {
    // The header of the group at a place.
    fn change_header(&self, place: u32, body: &mut [u8])
        ensures { body.new ≡ header_changed self.now.order self.now.accepted place body.old }
    {
        let summary = self.accepted.summary;
        match self.order {
            Order::ByLine => change_by_line(
                summary.layout.stride() as u8,
                mask_of(codes(&summary.bands)),
                body,
            ),
            Order::ByBand => change_by_band(b'0'.wrapping_add(self.code_at(place)), body),
        }
    }

    // Changes the body of a piece.
    pub(crate) fn change(&self, piece: Piece, body: &mut [u8])
        ensures { body.new ≡ changed (plan self.now) piece body.old }
    {
        match piece {
            Piece::Directory => change_directory(self.order, body),
            Piece::Header(place) => self.change_header(place, body),
            Piece::Mark | Piece::Attribute(_) | Piece::Image(_, _) | Piece::Trailer(_) => {}
        }
    }
}
