//! Operations: the calls of an object, in forms of their own.

ghost use Rattle.std.specs.Prelude.{◌≡◌, ℕ};

use crate::object::Object;

/// A call of an object `O`, in a form of its own, with an answer to match. An object whose calls are large has operations for those
/// that say little, so that neither a call nor a reply is moved: a history has the call and the reply that they stand for.
pub trait Operation<O: Object> {
    type Answer;

    ghost call: { Self → O.Call };

    ghost reply: { Self.Answer → O.Reply };

    /// The operation need not wait.
    fn ready(&self, object: &O) -> bool
        ensures { result ≡ O.is_ready object.now (call self.now) };

    fn run(self, object: &mut O, client: u8) -> Self::Answer
        ensures allowed { O.may object.old client (call self) (reply result) }
        ensures next { object.new ≡ O.after object.old client (call self) (reply result) };

    fn entry(client: u8, answer: &Self::Answer) -> O::Entry
        ensures { result ≡ O.entry_of client (reply answer.now) };
}

/// A call of the object, as it is.
pub struct Whole<C> {
    pub call: C,
}

impl<O: Object> Operation<O> for Whole<O::Call> {
    type Answer = O::Reply;

    ghost call = { λ op. op.call };

    ghost reply = { λ reply. reply };

    fn ready(&self, object: &O) -> bool {
        object.ready(&self.call)
    }

    fn run(self, object: &mut O, client: u8) -> O::Reply {
        let Whole { call } = self;
        object.run(client, call)
    }

    fn entry(client: u8, answer: &O::Reply) -> O::Entry {
        O::entry(client, answer)
    }
}
