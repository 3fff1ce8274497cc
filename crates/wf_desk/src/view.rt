//! What the table of a desk holds, and what its seats know.

ghost use Rattle.std.specs.Prelude.{List, []};
ghost use Rattle.wf_desk.specs.declared.event.Event.{Event};

use crate::event::Event;
use std::collections::LinkedList;
use std::marker::Brand;
use std::snapshot::Snapshot;

/// Where a seat stands in the line for the object, with its ticket.
pub enum Stage {
    Idle,
    Waits(u64),
    Has(u64),
}

/// A client, its events, and what its seat had seen when the hand was taken in by another seat.
pub struct Hand<C, R> {
    pub client: u8,
    pub mine: LinkedList<Event<C, R>>,
    pub seen: LinkedList<Event<C, R>>,
}

/// What a seat knows: the history that it has seen, what it was told of, the clients at it, and how many calls are
/// left. The root, from which the clients are dealt out, has the quotas of those that are still to come. No value of
/// this type is made.
pub struct View<O, C, R> {
    pub key: Option<Key<O>>,
    pub stage: Stage,
    pub seen: LinkedList<Event<C, R>>,
    pub told: LinkedList<Event<C, R>>,
    pub hands: LinkedList<Hand<C, R>>,
    pub left: u64,
    pub quotas: LinkedList<u64>,
    pub next: u64,
    pub root: bool,
}

/// What lies in the slot while no seat has it.
#[derive(Drop)]
pub struct Home<O, E> {
    pub object: O,
    pub journal: Vec<E>,
}

/// What the table is told once.
#[derive(Drop)]
pub struct Key<O> {
    pub opening: Snapshot<O>,
    pub quotas: Vec<u32>,
}

/// The event that one step puts into the history. Each call of the step picks it.
pub trait Happened<C, R> {
    ghost event: { List (Event C R) };
}

impl<C, R> Happened<C, R> for Brand {
    ghost event = { [] };
}
