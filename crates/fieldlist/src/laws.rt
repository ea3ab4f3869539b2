// Laws of what is shown: each function stands for its contract, and the number that it answers says nothing; the result's type is public.
ghost use Rattle.fieldlist.specs.Laws.{SameAnnotation, SameImage, ToldApart};

// A reader delivers bodies, and no identification. What is shown of a record that is put together from its body is what the record itself holds.
pub fn same_fields() -> u8
    ensures annotations { SameAnnotation }
    ensures lines { SameImage }
{
    0
}

// Parts of records that differ are never shown alike.
pub fn told_apart() -> u8
    ensures { ToldApart }
{
    0
}
