// A reader whose records are told by their fields.
ghost use Rattle.fieldlist.specs.List.{Remembered};

use deck::Deck;
use reader::Reader;
use std::alloc::Global;
use std::marker::Model;

// It is held with the heap that the text is taken from. What is told depends on its set, and on what it remembers of it.
#[derive(Drop)]
pub(crate) struct FieldList<D: Deck> {
    pub(crate) heap: Global,
    pub(crate) reader: Reader<D>,
}

impl<D: Deck> Model for FieldList<D> {
    ghost Value = { Remembered };

    ghost view = { λ l. record { set = D.meaning l.reader.deck; accepted = l.reader.accepted } };
}
