//! Laws of the definitions of sessions.

ghost use Rattle.std.specs.Prelude.{◌≡◌, ℕ, ◌+◌, ◌<◌, ◌≤◌, List, Option, length, IfSome};
ghost use Rattle.wf_wire.specs.declared.message.Message.{Message};
ghost use Rattle.wf_wire.specs.declared.stop.ServeStop.{ServeStop};
ghost use Rattle.wf_wire.specs.Reading.{Cursor, cursor};
ghost use Rattle.wf_wire.specs.Served.{AreTold, IsRead};
ghost use Rattle.wf_wire.specs.Session.{messages, session};

/// All messages of a session are told: a bound greater than the number of bytes tells the same ones as any greater bound.
pub fn all_messages_are_told()
    ensures { (c : Cursor) (most n : ℕ) → length c.left < most → most ≤ n → messages n c ≡ messages most c }
{}

/// The fault of a session lies in its bytes, or at their end.
pub fn faults_lie_in_the_input()
    ensures { (bytes : List ℕ) → IfSome (session bytes).told.fault (λ fault. fault.at ≤ length bytes) }
{}

/// The messages that a session answered are those that its bytes tell, up to their end or to the first fault, or the first ones of them.
pub fn answered_messages_are_told()
    ensures { (at : ℕ) (ms : List Message) (bytes end : List ℕ) (s : Option ServeStop) → IsRead at ms bytes end s
        → AreTold ms (messages (length bytes + 1) (cursor at bytes)) s }
{}
