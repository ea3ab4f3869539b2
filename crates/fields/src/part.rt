// A part of a record, which is lent.
ghost use Rattle.std.specs.Prelude.{◌≡◌, ◌+◌, ◌≤◌, length, is_ok, IfOk, IfErr};
ghost use Rattle.fields.specs.Faults.{part_of, lent_part};

use super::fault::FieldFault;

// Its bytes, and the number of the first of them in the record.
#[derive(Clone, Copy, PartialEq, Eq, Debug)]
pub struct Part<'a> {
    pub bytes: &'a [u8],
    pub first: usize,
}

impl<'a> Part<'a> {
    // So many bytes of a record from the first on.
    pub(crate) fn of(record: &'a [u8], first: usize, count: usize) -> Part<'a>
        requires { (1 ≤ first) × (first + count ≤ length «record».now + 1) }
        ensures { lent_part result ≡ part_of «record».now first count }
    {
        Part {
            bytes: &record[first - 1..first - 1 + count],
            first,
        }
    }
}

// A record, where it is of the kind that is read.
pub(crate) fn checked(of_kind: bool, record: &[u8]) -> Result<&[u8], FieldFault>
    ensures decides { is_ok result ≡ of_kind }
    ensures lends { IfOk result (λ r. r.now ≡ «record».now) }
    ensures refuses { IfErr result (λ e. e ≡ FieldFault.Record) }
{
    of_kind.then_some(record).ok_or(FieldFault::Record)
}
