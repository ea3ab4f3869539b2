// Why a field cannot be read.
ghost use Rattle.std.specs.Prelude.{◌≡◌};
ghost use Rattle.fields.specs.Faults.{field_number};

#[derive(Clone, Copy, PartialEq, Eq, Debug)]
pub enum FieldFault {
    // no such band
    Band,
    // a value that the field cannot have
    Code,
    // a record of another kind
    Record,
}

impl FieldFault {
    // The number by which callers know the refusal.
    pub fn number(self) -> u32
        ensures { result ≡ field_number self }
    {
        match self {
            FieldFault::Band => 42,
            FieldFault::Code => 47,
            FieldFault::Record => 48,
        }
    }
}
