//! The end of a desk: what all passes know is gathered at one seat, with which the table is closed.

ghost use Rattle.std.specs.Prelude.{◌≡◌, ℕ, ◌≤◌, [], length, All};
ghost use Rattle.wf_desk.specs.declared.view.Stage.TheVariants.{Idle};
ghost use Rattle.wf_desk.specs.History.{events_of};
ghost use Rattle.wf_desk.specs.Pass.{Known};
ghost use Rattle.wf_desk.specs.Ending.{AllOwn, Covers, Ends, Gathers, IsPassOf, hands_of};

use crate::board::{Board, Place};
use crate::journal::Journal;
use crate::object::Object;
use crate::pass::Pass;
use crate::plays::{Gather, Show};
use crate::view::Home;

impl<O: Object> Pass<O> {
    fn into_seat(self) -> Place<O>
        ensures place { result.table_id ≡ self.desk }
        ensures rest { (result.me.0.stage ≡ Idle) × (result.me.1 ≡ []) }
        ensures hand { IsPassOf result.me.0 self }
        ensures own { self.mine ≡ events_of self.client self.seen }
    {
        self.seat
    }
}

impl<O: Object> Board<O> {
    /// Takes in the client of one pass more.
    fn take_in(&self, seat: &mut Place<O>, pass: Pass<O>)
        requires place { (seat.old.table_id ≡ self.now.table.shared.table_id) × (pass.desk ≡ self.now.table.shared.table_id) }
        requires rest { (seat.old.me.0.stage ≡ Idle) × (seat.old.me.1 ≡ []) }
        ensures place { (seat.new.table_id ≡ seat.old.table_id) × (seat.new.me.0.stage ≡ Idle) × (seat.new.me.1 ≡ []) }
        ensures more { Gathers seat.old.me.0 pass seat.new.me.0 }
        ensures own { pass.mine ≡ events_of pass.client pass.seen }
    {
        self.table
            .shared
            .join_seat::<Gather>(seat, pass.into_seat());
    }

    /// A seat of no client.
    fn observer(&self, pass: &mut Pass<O>) -> Place<O>
        requires { pass.old.desk ≡ self.now.table.shared.table_id }
        ensures pass { pass.new ≡ pass.old }
        ensures place { (result.table_id ≡ self.now.table.shared.table_id) × (result.me.0.stage ≡ Idle) × (result.me.1 ≡ [])
            × (result.me.0.hands ≡ []) }
    {
        self.table.shared.split_seat::<Show>(&mut pass.seat)
    }

    /// A seat with the clients of all passes.
    pub(crate) fn gather(&self, mut passes: Vec<Pass<O>>) -> Place<O>
        requires desk { All (λ (k : Known O O.Call O.Reply). k.desk ≡ self.now.table.shared.table_id) passes.items }
        requires any { 1 ≤ length passes.items }
        ensures place { (result.table_id ≡ self.now.table.shared.table_id) × (result.me.0.stage ≡ Idle) × (result.me.1 ≡ []) }
        ensures hands { result.me.0.hands ≡ hands_of passes.items }
        ensures own { AllOwn passes.items }
    {
        let Some(mut last) = passes.pop() else {
            unreachable!()
        };
        let mut seat = self.observer(&mut last);
        self.take_in(&mut seat, last);
        while let Some(pass) = passes.pop() {
            self.take_in(&mut seat, pass);
        }
        passes.destroy_empty();
        seat
    }

    /// Closes the table with a seat that has all clients.
    pub(crate) fn end(self, seat: Place<O>) -> (O, Journal<O>)
        requires place { (seat.table_id ≡ self.table.shared.table_id) × (seat.me.0.stage ≡ Idle) × (seat.me.1 ≡ []) }
        requires all { Covers seat.me.0.hands (length self.table.shared.key.quotas.items) }
        ensures { Ends O.after O.may O.entry_of self.table.shared.key seat.me.0.hands result.0 result.1 }
    {
        let Board { table } = self;
        let mut closed = table.close_with(seat);
        let home = closed.take(0);
        closed.free();
        let Some(Home { object, journal }) = home else {
            unreachable!()
        };
        (object, Journal::new(journal))
    }
}
