//! Objects that a desk can stand for.

ghost use Rattle.std.specs.Prelude.{◌≡◌, ℕ, Bool};

/// An object with calls. It is written for one thread; a desk makes it one that many threads call.
///
/// A call may answer freely what `may` leaves open. What it decided has to show in its reply, since the object after
/// it is `after`, a function of the object before, the client, the call and the reply.
pub trait Object: Send + Drop {
    type Call;

    type Reply;

    /// What the journal keeps of an event.
    type Entry: Send + Drop;

    ghost is_ready: { Self → Self.Call → Bool };

    ghost may: { Self → ℕ → Self.Call → Self.Reply → Type 0 };

    ghost after: { Self → ℕ → Self.Call → Self.Reply → Self };

    ghost entry_of: { ℕ → Self.Reply → Self.Entry };

    /// The call need not wait.
    fn ready(&self, call: &Self::Call) -> bool
        ensures { result ≡ is_ready self.now call.now };

    fn run(&mut self, client: u8, call: Self::Call) -> Self::Reply
        ensures allowed { may self.old client call result }
        ensures next { self.new ≡ after self.old client call result };

    fn entry(client: u8, reply: &Self::Reply) -> Self::Entry
        ensures { result ≡ entry_of client reply.now };
}
