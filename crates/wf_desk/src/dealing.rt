//! The passes of a new desk, dealt out from the table's first seat.

ghost use Rattle.std.specs.Prelude.{◌≡◌, ◌≤◌, ◌+◌, ℕ, true, Some, [], ◌∷◌, List, length, vec_capacity};
ghost use Rattle.wf_desk.specs.declared.view.Stage.TheVariants.{Idle};
ghost use Rattle.wf_desk.specs.Pass.{fresh};
ghost use Rattle.wf_desk.specs.Plays.{dealt, pass_of, starting};

use crate::board::{Board, Place};
use crate::object::Object;
use crate::pass::Pass;
use crate::plays::Deal;
use crate::view::Key;

impl<O: Object> Board<O> {
    /// The seat of the next client.
    fn deal(&self, root: &mut Place<O>) -> Place<O>
        requires place { root.old.table_id ≡ self.now.table.shared.table_id }
        requires root { (root.old.me.0.stage ≡ Idle) × (root.old.me.0.root ≡ true) }
        requires more { (quota : ℕ) × (quotas : List ℕ) × (root.old.me.0.quotas ≡ quota ∷ quotas) }
        ensures root { (root.new.table_id ≡ root.old.table_id) × (root.new.me.0 ≡ dealt root.old.me.0) }
        ensures seat { (result.table_id ≡ root.old.table_id) × (result.me ≡ (pass_of root.old.me.0, [])) }
    {
        self.table.shared.split_seat::<Deal>(root)
    }

    /// The pass of the next client.
    fn deal_one(&self, root: &mut Place<O>, key: &Key<O>, client: u8, left: u32) -> Pass<O>
        requires place { root.old.table_id ≡ self.now.table.shared.table_id }
        requires root { (root.old.me.0.stage ≡ Idle) × (root.old.me.0.root ≡ true) }
        requires key { root.old.me.0.key ≡ Some key.now }
        requires next { root.old.me.0.next ≡ client }
        requires left { (quotas : List ℕ) × (root.old.me.0.quotas ≡ left ∷ quotas) }
        ensures root { (root.new.table_id ≡ root.old.table_id) × (root.new.me.0 ≡ dealt root.old.me.0) }
        ensures pass { result ≡ record {
          desk = self.now.table.shared.table_id;
          client = client;
          opening = Some key.now.opening.value;
          left = left;
          seen = [];
          mine = [];
          place = 0;
        } }
    {
        let seat = self.deal(root);
        Pass {
            seat,
            client,
            left,
            place: 0,
        }
    }

    /// The passes of all clients, for which there is room.
    pub(crate) fn deal_all(&self, root: &mut Place<O>, key: &Key<O>, passes: &mut Vec<Pass<O>>)
        requires root { (root.old.table_id ≡ self.now.table.shared.table_id) × (root.old.me ≡ (starting key.now, [])) }
        requires passes { (passes.old.items ≡ []) × (length key.now.quotas.items ≤ vec_capacity passes.old) }
        requires few { length key.now.quotas.items ≤ 8 }
        ensures { passes.new.items ≡ fresh self.now.table.shared.table_id key.now.opening.value 0 key.now.quotas.items }
    {
        let mut client = 0u8;
        for i in 0..key.quotas.len() {
            let left = key.quotas[i];
            let pass = self.deal_one(root, key, client, left);
            passes.push_reserved(pass);
            client += 1;
        }
    }
}
