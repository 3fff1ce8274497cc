//! Journals of closed desks.

ghost use Rattle.std.specs.Prelude.{◌≡◌};

use crate::object::Object;
use std::marker::Model;

/// The entries of all events of a desk, in their order.
#[derive(Drop)]
pub struct Journal<O: Object> {
    entries: Vec<O::Entry>,
}

impl<O: Object> Model for Journal<O> {
    ghost use Rattle.std.specs.Prelude.{List};

    ghost Value = { List O.Entry };

    ghost view = { λ j. j.entries.items };
}

impl<O: Object> Journal<O> {
    pub(crate) fn new(entries: Vec<O::Entry>) -> Journal<O>
        ensures { result ≡ entries.items }
    {
        Journal { entries }
    }

    /// Returns the entries as a list. It cannot lack memory.
    pub fn into_entries(self) -> Vec<O::Entry>
        ensures { result.items ≡ self }
    {
        self.entries
    }
}
