// Laws of the fields: each function stands for its contract, and the number that it answers says nothing; the result's type is public.
ghost use Rattle.fields.specs.Laws.{Worked, OneCount, OneSigned};

// Values worked out by hand.
pub fn worked_cases() -> u8
    ensures { Worked }
{
    0
}

// Each number is told in one way only.
pub fn one_encoding() -> u8
    ensures counts { OneCount }
    ensures numbers { OneSigned }
{
    0
}
