// Opening an indexed image.
ghost use Rattle.std.specs.Prelude.{vec_items};
ghost use Rattle.image.specs.Indexed.{Encodes, verdict};
ghost use Rattle.image.specs.Stored.{is_set};

use super::super::opened::Image;
use super::super::refusal::Unopened;
use super::Indexed;
use super::check::check;

impl Image for Indexed {
    ghost judged = { verdict };

    ghost encodes = { Encodes };

    ghost source = { λ i. i.bytes };

    ghost means = { λ i. is_set (verdict (vec_items i.bytes)) i.judged };

    #[tactic(auto, using(crate::proofs::Listings::exactly_passed, crate::proofs::Listings::exactly_stopped))]
    fn open(bytes: Vec<u8>) -> Result<Indexed, Unopened> {
        match check(bytes.as_slice()) {
            Ok(()) => Ok(Indexed { bytes }),
            Err(refusal) => Err(Unopened { refusal, bytes }),
        }
    }

    fn into_bytes(self) -> Vec<u8> {
        self.bytes
    }
}
