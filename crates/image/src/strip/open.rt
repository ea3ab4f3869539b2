// Opening a strip.
ghost use Rattle.std.specs.Prelude.{◌≡◌, vec_items};
ghost use Rattle.image.specs.Stored.{is_set};
ghost use Rattle.image.specs.Strip.{encoded, verdict};

use super::super::cursor::Cursor;
use super::super::opened::Image;
use super::super::refusal::Unopened;
use super::super::scan::scan;
use super::Strip;

impl Image for Strip {
    ghost judged = { verdict };

    ghost encodes = { λ bytes set. encoded set ≡ bytes };

    ghost source = { λ s. s.bytes };

    ghost means = { λ s. is_set (verdict (vec_items s.bytes)) s.judged };

    #[tactic(auto, using(crate::proofs::Openings::exactly_opened, crate::proofs::Openings::exactly_refused))]
    fn open(bytes: Vec<u8>) -> Result<Strip, Unopened> {
        match scan(bytes.as_slice()) {
            Ok(chart) => {
                let cursor = Cursor {
                    reel: 0,
                    block: 0,
                    at: 0,
                };
                Ok(Strip {
                    bytes,
                    chart,
                    cursor,
                })
            }
            Err(refusal) => Err(Unopened { refusal, bytes }),
        }
    }

    fn into_bytes(self) -> Vec<u8> {
        self.bytes
    }
}
