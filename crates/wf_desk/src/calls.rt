//! One call, from the seat's ticket to the reply.

ghost use Rattle.std.specs.Prelude.{◌≡◌, ℕ, ◌<◌, [], ◌∷◌, ◌++◌, Some, None, length, vec_capacity, IsTrue, ⊤};
ghost use Rattle.wf_desk.specs.declared.view.Stage.TheVariants.{Idle, Has};
ghost use Rattle.wf_desk.specs.declared.view.Hand.{Hand};
ghost use Rattle.wf_desk.specs.declared.view.Key.{Key};
ghost use Rattle.wf_desk.specs.History.{IsLegal, event, replay};
ghost use Rattle.wf_desk.specs.Plays.{Finds, Makes, at_stage, grown};

use crate::board::{Board, Place};
use crate::object::Object;
use crate::operation::Operation;
use crate::view::Home;
use std::marker::Brand;
use std::snapshot::Snapshot;
use std::sync::Wait;

impl<O: Object> Home<O, O::Entry> {
    /// Runs an operation, and keeps its entry.
    fn answer<P: Operation<O>>(&mut self, client: u8, op: P) -> P::Answer
        requires { length self.old.journal.items < vec_capacity self.old.journal }
        ensures object { self.new.object ≡ O.after self.old.object client (P.call op) (P.reply result) }
        ensures may { O.may self.old.object client (P.call op) (P.reply result) }
        ensures entry { self.new.journal.items ≡ self.old.journal.items ++ O.entry_of client (P.reply result) ∷ [] }
        ensures room { vec_capacity self.new.journal ≡ vec_capacity self.old.journal }
    {
        let answer = op.run(&mut self.object, client);
        self.journal.push_reserved(P::entry(client, &answer));
        answer
    }
}

impl<O: Object> Board<O> {
    /// One event, by the seat that has the object. It gives the reply and the event's place in the history.
    fn finish<P: Operation<O>>(
        &self,
        seat: &mut Place<O>,
        mut home: Home<O, O::Entry>,
        client: u8,
        op: P,
    ) -> (P::Answer, u32)
        requires place { seat.old.table_id ≡ self.now.table.shared.table_id }
        requires turn { (ticket : ℕ) × (seat.old.me.0.stage ≡ Has ticket) }
        requires empty { seat.old.me.1 ≡ (0, None) ∷ [] }
        requires finds { Finds O.after O.may O.entry_of seat.old.me.0 seat.old.me.0.seen home }
        requires hand { (hand : Hand O.Call O.Reply) × (seat.old.me.0.hands ≡ hand ∷ [])
            × (hand.client ≡ client) }
        requires left { 0 < seat.old.me.0.left }
        ensures place { (seat.new.table_id ≡ seat.old.table_id) × (seat.new.id ≡ seat.old.id) }
        ensures made { seat.new.me
            ≡ (
              at_stage (grown seat.old.me.0 (event client (P.call op) (P.reply result.0))) Idle
                  (seat.old.me.0.seen ++ event client (P.call op) (P.reply result.0) ∷ []),
              [],
            ) }
        ensures at { result.1 ≡ length seat.old.me.0.seen }
        ensures legal { (k : Key O) → seat.old.me.0.key ≡ Some k
            → IsLegal O.after O.may k.opening.value (seat.old.me.0.seen ++ event client (P.call op) (P.reply result.0) ∷ []) }
        ensures may { (k : Key O) → seat.old.me.0.key ≡ Some k
            → O.may (replay O.after k.opening.value seat.old.me.0.seen) client (P.call op) (P.reply result.0) }
    {
        let asked = Snapshot::of(&op);
        let answer = home.answer(client, op);
        let at = self.record::<P, Brand>(seat, client, &asked, &answer);
        self.put(seat, home);
        self.leave(seat);
        (answer, at)
    }

    /// One event.
    pub(crate) fn make<R: Wait, P: Operation<O>>(
        &self,
        rt: &R,
        seat: &mut Place<O>,
        client: u8,
        op: P,
    ) -> (P::Answer, u32)
        requires place { seat.old.table_id ≡ self.now.table.shared.table_id }
        requires idle { (seat.old.me.0.stage ≡ Idle) × (seat.old.me.1 ≡ []) }
        requires hand { (hand : Hand O.Call O.Reply) × (seat.old.me.0.hands ≡ hand ∷ [])
            × (hand.client ≡ client) }
        requires left { 0 < seat.old.me.0.left }
        requires key { (k : Key O) × (seat.old.me.0.key ≡ Some k) }
        ensures place { (seat.new.table_id ≡ seat.old.table_id) × (seat.new.id ≡ seat.old.id) }
        ensures made { Makes O.after O.may (λ _. ⊤) seat.old.me.0 client (P.call op) (P.reply result.0) result.1 seat.new.me }
    {
        let home = self.enter(rt, seat);
        self.finish(seat, home, client, op)
    }

    /// One event, at a point where the object is ready for it.
    pub(crate) fn make_when<R: Wait, P: Operation<O>>(
        &self,
        rt: &R,
        seat: &mut Place<O>,
        client: u8,
        op: P,
    ) -> (P::Answer, u32)
        requires place { seat.old.table_id ≡ self.now.table.shared.table_id }
        requires idle { (seat.old.me.0.stage ≡ Idle) × (seat.old.me.1 ≡ []) }
        requires hand { (hand : Hand O.Call O.Reply) × (seat.old.me.0.hands ≡ hand ∷ [])
            × (hand.client ≡ client) }
        requires left { 0 < seat.old.me.0.left }
        requires key { (k : Key O) × (seat.old.me.0.key ≡ Some k) }
        ensures place { (seat.new.table_id ≡ seat.old.table_id) × (seat.new.id ≡ seat.old.id) }
        ensures made { Makes O.after O.may (λ object. IsTrue (O.is_ready object (P.call op)))
            seat.old.me.0 client (P.call op) (P.reply result.0) result.1 seat.new.me }
    {
        for _ in rt.forever() {
            let home = self.enter(rt, seat);
            if op.ready(&home.object) {
                return self.finish(seat, home, client, op);
            }
            self.put(seat, home);
            self.leave(seat);
        }
        unreachable!()
    }
}
