// Bytes of a record as text.
ghost use Rattle.std.specs.Prelude.{◌≡◌, Some};
ghost use Rattle.fieldlist.specs.Shown.{plain, shown_byte, quoted};

use std::fmt;

// Whether a byte is shown as it is: a printable character that is neither the quote nor the backslash.
fn is_plain(byte: u8) -> bool
    ensures { result ≡ plain byte }
{
    b' ' <= byte && byte <= b'~' && byte != b'"' && byte != b'\\'
}

// A byte, which is shown as it is or by its two hexadecimal digits.
#[derive(Clone, Copy)]
struct Shown(u8);

impl fmt::Display for Shown {
    ghost output = { λ s. Some (shown_byte s.0) };

    fn fmt<W: fmt::Write>(&self, f: &mut fmt::Formatter<W>) -> fmt::Result {
        let byte = self.0;
        if is_plain(byte) {
            f.write_char(char::from(byte))
        } else {
            write!(f, "\\{byte:02x}")
        }
    }
}

// Some bytes, which are shown in quotes.
#[derive(Clone, Copy)]
pub(crate) struct Quoted<'a>(pub(crate) &'a [u8]);

impl fmt::Display for Quoted<'_> {
    ghost output = { λ q. Some (quoted q.0.now) };

    fn fmt<W: fmt::Write>(&self, f: &mut fmt::Formatter<W>) -> fmt::Result {
        f.write_char('"')?;
        for byte in self.0 {
            write!(f, "{}", Shown(*byte))?;
        }
        f.write_char('"')
    }
}
