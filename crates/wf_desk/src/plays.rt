//! What each step on the table of a desk tells, how seats are cut in two, and how two are made one.

ghost use Rattle.wf_desk.specs.Plays.{drew, grew, rested, took, caught, dealt, pass_of, note_of, noting, gathering, blank};

use crate::object::Object;
use crate::view::{Happened, Home, View};
use atomic_table::{Join, Play, Split};
use std::marker::PhantomData;

/// A ticket is drawn.
pub struct Draw;

impl<O, C, R, E> Play<Option<Home<O, E>>, View<O, C, R>> for Draw {
    ghost then = { drew };
}

/// The history grows by one event.
pub struct Grow<H> {
    marker: PhantomData<H>,
}

impl<O, C, R, E, H: Happened<C, R>> Play<Option<Home<O, E>>, View<O, C, R>> for Grow<H> {
    ghost then = { grew H.event };
}

/// A ticket is spent, and the object is home.
pub struct Rest;

impl<O, C, R, E> Play<Option<Home<O, E>>, View<O, C, R>> for Rest {
    ghost then = { rested };
}

/// The object is taken out where it is the seat's turn.
pub struct Take<O> {
    marker: PhantomData<O>,
}

impl<O: Object> Play<Option<Home<O, O::Entry>>, View<O, O::Call, O::Reply>> for Take<O> {
    ghost then = { took O.after O.may O.entry_of };
}

/// An idle seat sees the history so far.
pub struct Catch<O> {
    marker: PhantomData<O>,
}

impl<O: Object> Play<Option<Home<O, O::Entry>>, View<O, O::Call, O::Reply>> for Catch<O> {
    ghost then = { caught O.after O.may };
}

/// The next client gets a seat.
pub struct Deal;

impl<O, C, R> Split<View<O, C, R>> for Deal {
    ghost left = { dealt };

    ghost right = { pass_of };
}

/// A seat of no client is made, which shows what this seat has seen.
pub struct Show;

impl<O, C, R> Split<View<O, C, R>> for Show {
    ghost left = { λ view. view };

    ghost right = { note_of };
}

/// A seat is told what another has seen.
pub struct Tell;

impl<O, C, R> Join<View<O, C, R>> for Tell {
    ghost both = { noting };

    ghost spent = { blank };
}

/// A seat takes in the clients of another.
pub struct Gather;

impl<O, C, R> Join<View<O, C, R>> for Gather {
    ghost both = { gathering };

    ghost spent = { blank };
}
