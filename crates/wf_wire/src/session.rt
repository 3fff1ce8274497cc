//! A session whose header was read: how far its input was read, and how it is served.

ghost use Rattle.std.specs.Prelude.{◌≡◌, ◌+◌, ◌<◌, ◌≤◌, IfOk, IfSome, IsErrOf, IsTrue};
ghost use Rattle.wf_calls.specs.PortRules.{may_declare};
ghost use Rattle.wf_io.specs.Causes.{Rose};
ghost use Rattle.wf_wire.specs.Header.{header};
ghost use Rattle.wf_wire.specs.Messages.{may_paint, next};
ghost use Rattle.wf_wire.specs.Served.{Closed, is_write_fault, stop_of};
ghost use Rattle.wf_wire.specs.Session.{Begins, Continues};
ghost use Rattle.wf_wire.specs.Taking.{FindsNext, IsCaused, Opens};

use crate::MESSAGES_END;
use crate::header::header_of;
use crate::meaning::message_of;
use crate::message::Message;
use crate::messages::next_of;
use crate::serving::{answer_all, discard};
use crate::stop::ServeStop;
use std::marker::Model;
use std::sync::Wait;
use wf_calls::Ports;
use wf_desk::{Desk, Pass};
use wf_io::{Sink, Source};
use wf_machine::Machine;

/// A session whose header was read. It keeps how many bytes of its input were read, and none of them.
#[derive(Drop)]
pub struct Session {
    at: u64,
}

impl Model for Session {
    ghost use Rattle.std.specs.Prelude.{ℕ, ◌+◌, ◌≤◌};
    ghost use Rattle.wf_wire.specs.declared.TheConstants.{MESSAGES_END};

    ghost Value = { ℕ };

    ghost view = { λ s. s.at };

    ghost invariant = { λ s. s.at ≤ MESSAGES_END + 72 };
}

impl Session {
    /// Reads the header of a session from `input`, and tells the ports and the pipelines that it declares. Each field is looked at
    /// when it is whole, and nothing is read behind the first that breaks a rule.
    pub fn open<I: Source>(input: &mut I) -> Result<(Session, Ports), ServeStop>
        ensures header { Opens header (I.left input.old) (I.left input.new) result }
        ensures session { Begins (I.left input.old) (I.left input.new) result }
        ensures ports { IfOk result (λ opened. IsTrue (may_declare opened.1)) }
        ensures caused { IsCaused (I.faults input.old) (I.faults input.new) result }
    {
        let mut at = 0;
        match header_of(input, &mut at) {
            Ok(ports) => Ok((Session { at }, ports)),
            Err(stop) => Err(stop),
        }
    }

    /// Returns how many bytes of the input were read: where the next message begins.
    pub fn at(&self) -> u64
        ensures at { result ≡ self.now }
        ensures most { result ≤ MESSAGES_END + 72 }
    {
        self.at
    }

    /// Reads the next message from `input`, or `None` where the input ends. Each argument is looked at when it is whole, and nothing
    /// is read behind the first that breaks a rule, nor behind the message.
    pub fn next<I: Source>(&mut self, input: &mut I) -> Result<Option<Message>, ServeStop>
        ensures message { FindsNext next (I.left input.old) self.old (I.left input.new) self.new result }
        ensures session { Continues (I.left input.old) self.old (I.left input.new) self.new result }
        ensures further { IfOk result (λ message. IfSome message (λ _. self.old < self.new)) }
        ensures paint { IfOk result (λ message. IfSome message (λ m. IsTrue (may_paint m))) }
        ensures caused { IsCaused (I.faults input.old) (I.faults input.new) result }
    {
        let mut at = self.at;
        let heard = next_of(input, &mut at);
        self.at = at;
        match heard {
            Ok(Some(heard)) => Ok(Some(message_of(heard.form, &heard.bits))),
            Ok(None) => Ok(None),
            Err(stop) => Err(stop),
        }
    }
    /// Answers the messages of `input` through `pass`, one after another, and puts the answers into `out`, each before the next message
    /// is read. At the end of the input it returns how many events it made.
    ///
    /// A session holds a canvas or none, and begins with none. A message that begins a frame waits until no frame runs; the frame is
    /// painted and ends, and the picture of a port's frame follows its answer. When the session ends, for any cause, a canvas that is
    /// held is discarded. The session takes no memory, and copies no byte of an image.
    pub fn serve<R: Wait, I: Source, K: Sink>(
        self,
        rt: &R,
        desk: &Desk<Machine>,
        pass: &mut Pass<Machine>,
        input: &mut I,
        out: &mut K,
    ) -> Result<u64, ServeStop>
        requires desk { pass.old.desk ≡ desk.now.id }
        requires left { 1 ≤ pass.old.left }
        ensures served { Closed K.took pass.old pass.new out.old out.new self (I.left input.old) (I.left input.new) result }
        ensures input_count { I.faults input.old ≤ I.faults input.new }
        ensures read_fault { IsErrOf result ServeStop.ReadFault → Rose (I.faults input.old) (I.faults input.new) }
        ensures out_count { K.faults out.old ≤ K.faults out.new }
        ensures write_fault { IsTrue (is_write_fault (stop_of result)) → Rose (K.faults out.old) (K.faults out.new) }
    {
        let most = pass.left();
        let mut session = self;
        let mut held = None;
        let end = answer_all(&mut session, rt, desk, pass, &mut held, input, out);
        discard(rt, desk, pass, held);
        match end {
            Ok(()) => Ok(u64::from(most - pass.left())),
            Err(stop) => Err(stop),
        }
    }
}
