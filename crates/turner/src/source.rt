// A record that is shown, but for the bytes of its body.
ghost use Rattle.std.specs.Prelude.{◌≤◌};

use reader::Spot;

// Where a body comes from: zeros, a record below, or nothing where a line has no place.
// `Nowhere` is a case of three: beside an Option of the other two, five of the makers would say `Some`.
#[derive(Clone, Copy)]
pub enum Origin {
    Zero,
    Below(Spot),
    Nowhere,
}

// A record that is shown: its type, its number, its length, and where its body comes from. It has its six identification bytes, and no more
// bytes than a tape's longest.
#[derive(Clone, Copy)]
pub struct Source {
    // A record's type is the byte of the layout, as `records` names it.
    pub kind: u8,
    pub number: u32,
    pub size: usize,
    pub origin: Origin,
    ghost six: { 6 ≤ size },
    ghost few: { size ≤ 5388 },
}
