//! Desks.

ghost use Rattle.std.specs.Prelude.{◌≡◌, ◌<◌, ◌≤◌, ◌^◌, length, sum, IfOk, IsTrue, ⊤};
ghost use Rattle.wf_desk.specs.History.{IsPrefix};
ghost use Rattle.wf_desk.specs.Pass.{IsOwn, Made, fresh};
ghost use Rattle.wf_desk.specs.Desk.{AreAll, IsClosing};

use crate::NoMemory;
use crate::board::{Board, HISTORY};
use crate::journal::Journal;
use crate::object::Object;
use crate::operation::{Operation, Whole};
use crate::pass::Pass;
use crate::plays::{Catch, Show, Tell};
use crate::view::Key;
use std::alloc::Global;
use std::marker::Model;
use std::snapshot::Snapshot;
use std::sync::Wait;

/// One object that many threads call. Each call is one event of one history, in which the replies are those that a
/// single thread gets. A caller waits in line while others have the object; a call itself cannot lack memory,
/// beside the object's own.
///
/// Between two callers that never told each other anything, no order in time is claimed: each sees one history that
/// begins with what it had seen.
#[derive(Drop)]
pub struct Desk<O: Object> {
    board: Board<O>,
}

impl<O: Object> Model for Desk<O> {
    ghost use Rattle.std.specs.Prelude.{◌≤◌, length};
    ghost use Rattle.wf_desk.specs.Desk.{Opened};

    ghost Value = { Opened O };

    ghost view = { λ d. record {
      id = d.board.table.shared.table_id;
      opening = d.board.table.shared.key.opening.value;
      quotas = d.board.table.shared.key.quotas.items;
    } };

    ghost invariant = { λ d. 1 ≤ length d.board.table.shared.key.quotas.items };
}

impl<O: Object> Desk<O> {
    /// Opens a desk for `object`, with one pass for each of `quotas`, the i-th for the client i. It takes the memory of the
    /// whole journal. Where memory runs out, the object is dropped.
    pub fn open(
        alloc: Global,
        object: O,
        quotas: &[u32],
    ) -> Result<(Desk<O>, Vec<Pass<O>>), NoMemory>
        requires count { (1 ≤ length quotas.now) × (length quotas.now ≤ 8) }
        requires sum { sum quotas.now < 2 ^ 32 }
        ensures opening { IfOk result (λ opened. opened.0.opening ≡ object) }
        ensures quotas { IfOk result (λ opened. opened.0.quotas ≡ quotas.now) }
        ensures passes { IfOk result (λ opened. opened.1.items ≡ fresh opened.0.id object 0 quotas.now) }
    {
        let mut terms = Vec::with_capacity(alloc, quotas.len())?;
        terms.extend_from_slice(quotas)?;
        let total: u32 = quotas.iter().sum();
        let journal = Vec::with_capacity(alloc, total as usize)?;
        let mut passes = Vec::with_capacity(alloc, quotas.len())?;
        let key = Key {
            opening: Snapshot::of(&object),
            quotas: terms,
        };
        let (board, mut root) = Board::new(alloc, object, journal, &key)?;
        board.deal_all(&mut root, &key, &mut passes);
        Ok((Desk { board }, passes))
    }

    /// Runs `call` for the client of `pass` at one point of the history. It may wait.
    pub fn call<R: Wait>(&self, rt: &R, pass: &mut Pass<O>, call: O::Call) -> O::Reply
        requires desk { pass.old.desk ≡ self.now.id }
        requires left { 0 < pass.old.left }
        ensures made { Made O.after O.may (λ _. ⊤) pass.old call result pass.new }
        ensures own { IsOwn O.after O.may pass.new }
    {
        let client = pass.client;
        let op = Whole { call };
        let (reply, place) = self.board.make(rt, &mut pass.seat, client, op);
        pass.left -= 1;
        pass.place = place;
        reply
    }

    /// Runs `call` for the client of `pass` at a point of the history where the object is ready for it. It may wait, for the
    /// object and for that point.
    pub fn call_when<R: Wait>(&self, rt: &R, pass: &mut Pass<O>, call: O::Call) -> O::Reply
        requires desk { pass.old.desk ≡ self.now.id }
        requires left { 0 < pass.old.left }
        ensures made { Made O.after O.may (λ object. IsTrue (O.is_ready object call))
            pass.old call result pass.new }
        ensures own { IsOwn O.after O.may pass.new }
    {
        self.perform_when(rt, pass, Whole { call })
    }

    /// Performs `op` for the client of `pass`, as `call_when` runs the call that it stands for.
    pub fn perform_when<R: Wait, P: Operation<O>>(
        &self,
        rt: &R,
        pass: &mut Pass<O>,
        op: P,
    ) -> P::Answer
        requires desk { pass.old.desk ≡ self.now.id }
        requires left { 0 < pass.old.left }
        ensures made { Made O.after O.may (λ object. IsTrue (O.is_ready object (P.call op)))
            pass.old (P.call op) (P.reply result) pass.new }
        ensures own { IsOwn O.after O.may pass.new }
    {
        let client = pass.client;
        let (answer, place) = self.board.make_when(rt, &mut pass.seat, client, op);
        pass.left -= 1;
        pass.place = place;
        answer
    }

    /// Tells `to` all that `from` has seen. It is no event, and waits for nobody.
    pub fn tell(&self, from: &mut Pass<O>, to: &mut Pass<O>)
        requires from_desk { from.old.desk ≡ self.now.id }
        requires to_desk { to.old.desk ≡ self.now.id }
        ensures from { from.new ≡ from.old }
        ensures same { to.new ≡ record to.old { seen = to.new.seen } }
        ensures seen { IsPrefix to.old.seen to.new.seen }
        ensures told { IsPrefix from.old.seen to.new.seen }
        ensures own { IsOwn O.after O.may to.new }
    {
        let note = self.board.table.shared.split_seat::<Show>(&mut from.seat);
        self.board
            .table
            .shared
            .join_seat::<Tell>(&mut to.seat, note);
        self.board
            .table
            .shared
            .load::<Catch<O>>(&mut to.seat, HISTORY);
    }

    /// Ends the desk, with `passes`, which are all of its own. It gives the object and the journal of all events.
    pub fn close(self, passes: Vec<Pass<O>>) -> (O, Journal<O>)
        requires passes { AreAll self.id (length self.quotas) passes.items }
        ensures { IsClosing O.after O.may O.entry_of self passes.items result.0 result.1 }
    {
        let Desk { board } = self;
        let seat = board.gather(passes);
        board.end(seat)
    }
}
