//! The object whose calls are timed.

ghost use Rattle.std.specs.Prelude.{◌≡◌, ◌+◌, ◌%◌, ◌^◌, true};

use wf_desk::Object;

/// It adds a number and answers the old sum.
#[derive(Drop)]
pub struct Counter {
    pub sum: u64,
}

impl Object for Counter {
    type Call = u64;

    type Reply = u64;

    type Entry = u64;

    ghost is_ready = { λ counter n. true };

    ghost may = { λ counter client n reply. reply ≡ counter.sum };

    ghost after = { λ counter client n reply. record { sum = (counter.sum + n) % 2 ^ 64 } };

    ghost entry_of = { λ client reply. reply };

    fn ready(&self, _call: &u64) -> bool {
        true
    }

    fn run(&mut self, _client: u8, call: u64) -> u64 {
        let old = self.sum;
        self.sum = old.wrapping_add(call);
        old
    }

    fn entry(_client: u8, reply: &u64) -> u64 {
        *reply
    }
}
