// Values of the layout, worked out by hand.
ghost use Rattle.std.specs.Prelude.{◌≡◌};
ghost use Rattle.survey.specs.Worked.{Worked};

// How many values stand in the table of those that were worked out by hand. That they are what the definitions give is its contract.
pub fn worked_values() -> u32
    ensures many { result ≡ 11 }
    ensures worked { Worked }
{
    11
}
