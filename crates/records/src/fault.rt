// What can be wrong with a tape set, by the layer that finds it.
ghost use Rattle.std.specs.Prelude.{◌≡◌};
ghost use Rattle.records.specs.declared.fault.Cause.TheVariants.{Deck, Record, Set};
ghost use Rattle.records.specs.Faults.{number, layer};

// The deck's layer: no block where one must be, or a bad block outside an image file.
#[derive(Clone, Copy, PartialEq, Eq, Debug)]
pub enum DeckFault {
    Absent,
    Bad,
}

// The record layer: a mark for a record, a record for a mark, or a record with a wrong length, fifth byte, type or number.
#[derive(Clone, Copy, PartialEq, Eq, Debug)]
pub enum RecordFault {
    MarkForRecord,
    RecordForMark,
    Length,
    FifthByte,
    Type,
    Number,
}

// The set's layer.
#[derive(Clone, Copy, PartialEq, Eq, Debug)]
pub enum SetFault {
    // a value of a directory
    Directory,
    // a later directory that differs from the first
    OtherDirectory,
    // a value of a header other than its bands
    Header,
    // the bands of a header
    Bands,
    // too many lines, or not as many as there must be
    Lines,
    // a missing band's block that is bad or not zero
    MissingBand,
    // a set that is unfinished on its last reel, or finished before it
    Finish,
    // a block behind a reel's end
    BehindEnd,
}

// A fault of any layer.
#[derive(Clone, Copy, PartialEq, Eq, Debug)]
pub enum Cause {
    Deck(DeckFault),
    Record(RecordFault),
    Set(SetFault),
}

// By hand, as the two below: a derived `From` would promise nothing.
impl From<DeckFault> for Cause {
    ghost from_gives = { λ e c. c ≡ Deck e };

    fn from(fault: DeckFault) -> Cause {
        Cause::Deck(fault)
    }
}

impl From<RecordFault> for Cause {
    ghost from_gives = { λ e c. c ≡ Record e };

    fn from(fault: RecordFault) -> Cause {
        Cause::Record(fault)
    }
}

impl From<SetFault> for Cause {
    ghost from_gives = { λ e c. c ≡ Set e };

    fn from(fault: SetFault) -> Cause {
        Cause::Set(fault)
    }
}

impl Cause {
    // The fault's number. It is no `From`, since a fault has its layer's number too.
    pub fn number(self) -> u32
        ensures { result ≡ number self }
    {
        match self {
            Cause::Deck(DeckFault::Absent) => 11,
            Cause::Deck(DeckFault::Bad) => 12,
            Cause::Record(RecordFault::MarkForRecord) => 21,
            Cause::Record(RecordFault::RecordForMark) => 22,
            Cause::Record(RecordFault::Length) => 23,
            Cause::Record(RecordFault::FifthByte) => 24,
            Cause::Record(RecordFault::Type) => 25,
            Cause::Record(RecordFault::Number) => 26,
            Cause::Set(SetFault::Directory) => 31,
            Cause::Set(SetFault::OtherDirectory) => 32,
            Cause::Set(SetFault::Header) => 33,
            Cause::Set(SetFault::Bands) => 34,
            Cause::Set(SetFault::Lines) => 35,
            Cause::Set(SetFault::MissingBand) => 36,
            Cause::Set(SetFault::Finish) => 37,
            Cause::Set(SetFault::BehindEnd) => 38,
        }
    }

    // The number of its layer.
    pub fn layer(self) -> u32
        ensures { result ≡ layer self }
    {
        match self {
            Cause::Deck(_) => 1,
            Cause::Record(_) => 2,
            Cause::Set(_) => 3,
        }
    }
}
