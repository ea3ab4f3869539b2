// The indexed image: a header that says where each block lies, and the records behind it.
ghost use Rattle.std.specs.Prelude.{◌≡◌, true, is_ok};
ghost use Rattle.deck.specs.Tape.{Sound};
ghost use Rattle.image.specs.Sole.{sole};
ghost use Rattle.image.specs.Indexed.{verdict, meant};

mod check;
mod open;
mod reading;

// An indexed image, opened. Its bytes are the image of a sound set.
#[derive(Drop)]
pub struct Indexed {
    bytes: Vec<u8>,
    ghost judged: { is_ok (verdict bytes.items) ≡ true },
    ghost sound: { Sound (meant bytes.items) } by { sole (meant bytes.items) },
}
