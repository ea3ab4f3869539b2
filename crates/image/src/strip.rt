// The strip: a tape set written from its first block to its last.
ghost use Rattle.std.specs.Prelude.{◌≡◌, ◌<◌, ◌≤◌, true, [], length, is_ok, slice_index_or};
ghost use Rattle.deck.specs.Tape.{Sound};
ghost use Rattle.image.specs.Chart.{Charts};
ghost use Rattle.image.specs.Sole.{sole};
ghost use Rattle.image.specs.Strip.{encoded, verdict, meant, place};

use super::chart::Chart;
use super::cursor::Cursor;

mod open;
mod reading;
mod winding;

// A strip, opened. Its bytes are the encoding of a sound set; the chart says where each reel lies; the cursor stands where the last
// block was read, so that the next one is near.
#[derive(Drop)]
pub struct Strip {
    bytes: Vec<u8>,
    chart: Chart,
    cursor: Cursor,
    ghost judged: { is_ok (verdict bytes.items) ≡ true },
    ghost sound: { Sound (meant bytes.items) } by { sole (meant bytes.items) },
    ghost spells: { encoded (meant bytes.items) ≡ bytes.items },
    ghost charted: { Charts (meant bytes.items) chart.items },
    ghost on_reel: { cursor.reel < length (meant bytes.items) },
    ghost on_block: { cursor.block ≤ length (slice_index_or (meant bytes.items) cursor.reel []) },
    ghost here: { cursor.at ≡ place (meant bytes.items) cursor.reel cursor.block },
}
