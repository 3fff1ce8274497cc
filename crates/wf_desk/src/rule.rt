//! The rule that every step on the table of a desk keeps.

use crate::object::Object;
use crate::view::{Home, Key, View};
use atomic_table::TableRule;
use std::marker::PhantomData;

pub struct Law<O> {
    marker: PhantomData<O>,
}

impl<O: Object> TableRule<Option<Home<O, O::Entry>>, View<O, O::Call, O::Reply>, Key<O>>
    for Law<O> {
    ghost use Rattle.wf_desk.specs.Rule.{Kept};
    ghost use Rattle.wf_desk.specs.Plays.{starting};

    ghost holds = { λ key. Kept O.after O.may O.entry_of key };

    ghost first = { λ key. starting key };
}
