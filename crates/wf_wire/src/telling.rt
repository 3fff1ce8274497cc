//! What a message asks for, by its number and its arguments.

ghost use Rattle.std.specs.Prelude.{◌≡◌, IfSome, IsTrue, None, Some, if◌then◌else◌};
ghost use Rattle.wf_wire.specs.Forms.{kinds_of};
ghost use Rattle.wf_wire.specs.Meaning.{message_of};
ghost use Rattle.wf_wire.specs.Messages.{are_of_kinds, may_paint, told_by};

use crate::fields::is_of_kind;
use crate::form::{Form, kinds_of};
use crate::kind::Kind;
use crate::meaning::message_of;
use crate::message::Message;
use crate::messages::form_of;

/// Tells whether these `bits` are those of arguments of these `kinds`, each in its range.
fn are_of_kinds(kinds: &[Kind], bits: &[u64]) -> bool
    ensures { result ≡ are_of_kinds kinds.now bits.now }
{
    let count = kinds.len();
    if bits.len() != count {
        return false;
    }
    for at in 0..count {
        if !is_of_kind(kinds[at], bits[at]) {
            return false;
        }
    }
    true
}

/// Returns what the message of `form` asks for, or `None` where these are not the `bits` of its arguments.
fn told_of(form: Form, bits: &[u64]) -> Option<Message>
    ensures message { result ≡ (if are_of_kinds (kinds_of form) bits.now then Some (message_of form bits.now) else None) }
    ensures paint { IfSome result (λ m. IsTrue (may_paint m)) }
{
    if are_of_kinds(kinds_of(form), bits) {
        Some(message_of(form, bits))
    } else {
        None
    }
}

impl Message {
    /// Returns what the message of `number` asks for whose arguments have these `bits`, in two's complement, or `None` where no message
    /// has that number, where its arguments are more or fewer, or where one is out of the range of its kind.
    pub fn of(number: u8, bits: &[u64]) -> Option<Message>
        ensures message { result ≡ told_by number bits.now }
        ensures paint { IfSome result (λ m. IsTrue (may_paint m)) }
    {
        match form_of(number) {
            Some(form) => told_of(form, bits),
            None => None,
        }
    }
}
