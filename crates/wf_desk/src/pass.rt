//! Passes: what a client calls a desk with.

ghost use Rattle.std.specs.Prelude.{◌≡◌, ◌<◌, length};
ghost use Rattle.wf_desk.specs.History.{IsLastAt};
ghost use Rattle.wf_desk.specs.Pass.{IsOwn};

use crate::board::Place;
use crate::object::Object;
use std::marker::Model;

/// What one client knows of a desk, and how many calls are left to it. Clauses see it as the history that it was told
/// of, by its own calls and by [`tell`](crate::Desk::tell).
///
/// A pass has one seat at the desk's table, and 12 bytes beside it. It may go to another thread.
#[derive(Drop)]
pub struct Pass<O: Object> {
    pub(crate) seat: Place<O>,
    pub(crate) client: u8,
    pub(crate) left: u32,
    pub(crate) place: u32,
}

impl<O: Object> Model for Pass<O> {
    ghost use Rattle.wf_desk.specs.Pass.{Known};

    ghost Value = { Known O O.Call O.Reply };

    ghost use Rattle.wf_desk.specs.Inside.{Sits, known};

    ghost view = { λ p. known p.seat p.client p.left p.place };

    ghost invariant = { λ p. Sits O.after O.may p.seat p.client p.left p.place };
}

impl<O: Object> Pass<O> {
    /// Returns how many calls are left.
    pub fn left(&self) -> u32
        ensures left { result ≡ self.now.left }
        ensures own { IsOwn O.after O.may self.now }
    {
        self.left
    }

    /// Returns the place in the history, counted from 0, of the last event of the pass's client.
    pub fn place(&self) -> u32
        requires called { 0 < length self.now.mine }
        ensures place { result ≡ self.now.place }
        ensures last { IsLastAt self.now.client self.now.seen result }
    {
        self.place
    }
}
