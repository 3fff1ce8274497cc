//! The table of a desk, and its single steps: a caller draws a ticket, waits for its turn, takes the object out, puts its
//! event into the history, puts the object back, and leaves.

ghost use Rattle.std.specs.Prelude.{◌≡◌, ◌≢◌, ℕ, true, ◌+◌, ◌-◌, ◌<◌, ◌≤◌, ◌^◌, [], ◌∷◌, ◌++◌, List, Some, None, length, sum, vec_capacity};
ghost use Rattle.std.specs.Prelude.{IfOk};
ghost use Rattle.wf_desk.specs.declared.view.Stage.TheVariants.{Idle, Waits, Has};
ghost use Rattle.wf_desk.specs.declared.view.Hand.{Hand};
ghost use Rattle.wf_desk.specs.declared.view.Home.{Home};
ghost use Rattle.wf_desk.specs.declared.view.Key.{Key};
ghost use Rattle.wf_desk.specs.History.{IsPrefix, event, replay};
ghost use Rattle.wf_desk.specs.Rule.{Fits};
ghost use Rattle.wf_desk.specs.Plays.{AllMine, Finds, at_stage, grown, starting};

use crate::NoMemory;
use crate::object::Object;
use crate::operation::Operation;
use crate::plays::{Draw, Grow, Rest, Take};
use crate::rule::Law;
use crate::view::{Happened, Home, Key, View};
use atomic_table::{Refused, Seat, Table};
use std::alloc::Global;
use std::snapshot::Snapshot;
use std::sync::Wait;

/// The word that is the length of the history.
pub(crate) const HISTORY: usize = 0;

/// The word that is the number of tickets drawn.
const DRAWN: usize = 1;

/// The word that is the number of tickets spent.
const SPENT: usize = 2;

pub type Place<O> = Seat<
    Option<Home<O, <O as Object>::Entry>>,
    View<O, <O as Object>::Call, <O as Object>::Reply>,
>;

#[derive(Drop)]
pub struct Board<O: Object> {
    pub(crate) table: Table<
        Option<Home<O, <O as Object>::Entry>>,
        View<O, <O as Object>::Call, <O as Object>::Reply>,
        Key<O>,
        Law<O>,
        Global,
    >,
    ghost sized: { (table.shared.table_id.words ≡ 3) × (table.shared.table_id.slots ≡ 1) },
}

impl<O: Object> Board<O> {
    /// The object is home with its journal, and nobody has called. The seat has the quotas of all clients.
    pub(crate) fn new(
        alloc: Global,
        object: O,
        journal: Vec<O::Entry>,
        key: &Key<O>,
    ) -> Result<(Board<O>, Place<O>), NoMemory>
        requires object { object ≡ key.now.opening.value }
        requires journal { (journal.items ≡ []) × (sum key.now.quotas.items ≤ vec_capacity journal) }
        requires sum { sum key.now.quotas.items < 2 ^ 32 }
        ensures key { IfOk result (λ r. r.0.table.shared.key ≡ key.now) }
        ensures table { IfOk result (λ r. r.1.table_id ≡ r.0.table.shared.table_id) }
        ensures seat { IfOk result (λ r. r.1.me ≡ (starting key.now, [])) }
    {
        let mut slots = Vec::with_capacity(alloc, 1)?;
        slots.push_reserved(Some(Home { object, journal }));
        match Table::new(alloc, &[0, 0, 0], slots, key) {
            Ok((table, root)) => Ok((Board { table }, root)),
            Err(Refused { slots: _ }) => Err(NoMemory),
        }
    }

    /// Draws a ticket. Where 2^64 - 1 were drawn it waits for good.
    fn draw<R: Wait>(&self, rt: &R, seat: &mut Place<O>) -> u64
        requires place { seat.old.table_id ≡ self.now.table.shared.table_id }
        requires idle { seat.old.me.0.stage ≡ Idle }
        ensures place { (seat.new.table_id ≡ seat.old.table_id) × (seat.new.id ≡ seat.old.id) }
        ensures drawn { seat.new.me ≡ (at_stage seat.old.me.0 (Waits result) seat.old.me.0.seen, seat.old.me.1) }
    {
        for _ in rt.forever() {
            let ticket = self.table.shared.peek(DRAWN);
            if ticket < u64::MAX {
                let found = self
                    .table
                    .shared
                    .compare_exchange::<Draw>(seat, DRAWN, ticket, ticket + 1);
                if found == ticket {
                    return ticket;
                }
            } else {
                self.table.shared.park(rt, DRAWN, u32::MAX);
            }
        }
        unreachable!()
    }

    /// Waits for the seat's turn, and takes the object out.
    pub(crate) fn enter<R: Wait>(&self, rt: &R, seat: &mut Place<O>) -> Home<O, O::Entry>
        requires place { seat.old.table_id ≡ self.now.table.shared.table_id }
        requires idle { (seat.old.me.0.stage ≡ Idle) × (seat.old.me.1 ≡ []) }
        requires key { (k : Key O) × (seat.old.me.0.key ≡ Some k) }
        requires hand { (hand : Hand O.Call O.Reply) × (seat.old.me.0.hands ≡ hand ∷ []) }
        ensures place { (seat.new.table_id ≡ seat.old.table_id) × (seat.new.id ≡ seat.old.id) }
        ensures taken { (ticket : ℕ)
            × (seat.new.me ≡ (at_stage seat.old.me.0 (Has ticket) seat.new.me.0.seen, (0, None) ∷ [])) }
        ensures seen { IsPrefix seat.old.me.0.seen seat.new.me.0.seen }
        ensures mine { AllMine seat.new.me.0.seen seat.old.me.0.hands }
        ensures finds { Finds O.after O.may O.entry_of seat.new.me.0 seat.new.me.0.seen result }
    {
        let ticket = self.draw(rt, seat);
        for _ in rt.forever() {
            let spent = self.table.shared.load::<Take<O>>(seat, SPENT);
            if spent == ticket {
                return self.table.shared.exchange(seat, 0, None).unwrap();
            }
            self.table
                .shared
                .park(rt, SPENT, (spent & 0xffff_ffff) as u32);
        }
        unreachable!()
    }

    /// The event takes its place in the history, which is the result.
    pub(crate) fn record<P: Operation<O>, H: Happened<O::Call, O::Reply>>(
        &self,
        seat: &mut Place<O>,
        client: u8,
        asked: &Snapshot<P>,
        answer: &P::Answer,
    ) -> u32
        requires place { seat.old.table_id ≡ self.now.table.shared.table_id }
        requires turn { (ticket : ℕ) × (seat.old.me.0.stage ≡ Has ticket) }
        requires event { H.event ≡ event client (P.call asked.now.value) (P.reply answer.now) ∷ [] }
        requires hand { (hand : Hand O.Call O.Reply) × (seat.old.me.0.hands ≡ hand ∷ [])
            × (hand.client ≡ client) }
        requires left { 0 < seat.old.me.0.left }
        requires may { (k : Key O) × (seat.old.me.0.key ≡ Some k)
            × O.may (replay O.after k.opening.value seat.old.me.0.seen) client (P.call asked.now.value) (P.reply answer.now) }
        ensures place { (seat.new.table_id ≡ seat.old.table_id) × (seat.new.id ≡ seat.old.id) }
        ensures grown { seat.new.me
            ≡ (grown seat.old.me.0 (event client (P.call asked.now.value) (P.reply answer.now)), seat.old.me.1) }
        ensures at { result ≡ length seat.old.me.0.seen }
    {
        self.table.shared.fetch_add::<Grow<H>>(seat, HISTORY, 1) as u32
    }

    /// Puts the object back into the slot, which the seat still has.
    pub(crate) fn put(&self, seat: &mut Place<O>, home: Home<O, O::Entry>)
        requires place { seat.old.table_id ≡ self.now.table.shared.table_id }
        requires empty { seat.old.me.1 ≡ (0, None) ∷ [] }
        ensures place { (seat.new.table_id ≡ seat.old.table_id) × (seat.new.id ≡ seat.old.id) }
        ensures put { seat.new.me ≡ (seat.old.me.0, (0, Some home) ∷ []) }
    {
        let was = self.table.shared.exchange(seat, 0, Some(home));
        let None = was else { unreachable!() };
    }

    /// The slot goes home with the object, and the next ticket has its turn.
    pub(crate) fn leave(&self, seat: &mut Place<O>)
        requires place { seat.old.table_id ≡ self.now.table.shared.table_id }
        requires turn { (ticket : ℕ) × (seat.old.me.0.stage ≡ Has ticket) }
        requires home { (home : Home O O.Entry) × (seat.old.me.1 ≡ (0, Some home) ∷ [])
            × (k : Key O) × (seat.old.me.0.key ≡ Some k) × Fits O.after O.entry_of k seat.old.me.0.seen home }
        ensures place { (seat.new.table_id ≡ seat.old.table_id) × (seat.new.id ≡ seat.old.id) }
        ensures idle { seat.new.me ≡ (at_stage seat.old.me.0 Idle seat.old.me.0.seen, []) }
    {
        let spent = self.table.shared.fetch_add::<Rest>(seat, SPENT, 1);
        // Whoever draws a ticket after this look finds the new number of tickets spent by itself.
        if self.table.shared.peek(DRAWN) > spent.wrapping_add(1) {
            self.table.shared.wake_all(SPENT);
        }
    }
}
