// A block of an image, its bytes lent, and what a deck answers of it.
ghost use Rattle.std.specs.Prelude.{◌≡◌, ◌+◌, ◌≤◌, length};
ghost use Rattle.deck.specs.Answers.{kind_of, fetched, filled};
ghost use Rattle.image.specs.Found.{seen, lent, block_at_word, block_listed};

use super::cursor::block_at;
use super::word::known_word;
use deck::{Kind, Short};

// A stored block whose bytes begin at a place, if they all lie in the image.
fn lent(bytes: &[u8], at: usize, block: Kind<usize>) -> Option<Kind<&[u8]>>
    ensures { seen result ≡ lent bytes.now at block }
{
    Some(match block {
        Kind::Record(length) => Kind::Record(bytes.get(at..)?.get(..length)?),
        Kind::Mark => Kind::Mark,
        Kind::Bad => Kind::Bad,
    })
}

// The block whose kind word lies at a place of a strip.
pub(crate) fn found_at(bytes: &[u8], at: usize) -> Option<Kind<&[u8]>>
    ensures { seen result ≡ block_at_word bytes.now at }
{
    let block = block_at(bytes, at)?;
    lent(bytes, at + 4, block)
}

// The block whose entry lies at a place of an indexed image.
pub(crate) fn listed_at(bytes: &[u8], at: usize) -> Option<Kind<&[u8]>>
    requires { at + 8 ≤ length bytes.now }
    ensures { seen result ≡ block_listed bytes.now at }
{
    let offset = known_word(bytes, at) as usize;
    let block = block_at(bytes, at + 4)?;
    lent(bytes, offset, block)
}

// Its kind, a record with its length.
pub(crate) fn kind(found: Option<Kind<&[u8]>>) -> Option<Kind<usize>>
    ensures { result ≡ kind_of (seen found.entry) }
{
    Some(match found? {
        Kind::Record(bytes) => Kind::Record(bytes.len()),
        Kind::Mark => Kind::Mark,
        Kind::Bad => Kind::Bad,
    })
}

// A record that fits is put at the front of the buffer. The rest of the buffer is left.
pub(crate) fn deliver(
    found: Option<Kind<&[u8]>>,
    buffer: &mut [u8],
) -> Result<Option<Kind<usize>>, Short>
    ensures answers { result ≡ fetched (seen found.entry) (length buffer.old) }
    ensures writes { buffer.new ≡ filled (seen found.entry) buffer.old }
{
    if let Some(Kind::Record(bytes)) = found {
        if buffer.len() < bytes.len() {
            return Err(Short);
        }
        buffer[0..bytes.len()].copy_from_slice(bytes);
    }
    Ok(kind(found))
}
