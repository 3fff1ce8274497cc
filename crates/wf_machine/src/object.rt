//! The machine as an object of a desk.

ghost use Rattle.wf_calls.specs.Codes.{entry};
ghost use Rattle.wf_machine.specs.Object.{MayAnswer, after, is_ready};

use crate::machine::Machine;
use wf_calls::{Call, Reply, Turn};
use wf_desk::Object;

/// Behind a desk, an answer with its entry is the plain machine's step. The journal keeps a turn of each event.
impl Object for Machine {
    type Call = Call;

    type Reply = Reply;

    type Entry = Turn;

    ghost is_ready = { is_ready };

    ghost may = { MayAnswer };

    ghost after = { after };

    ghost entry_of = { entry };

    fn ready(&self, call: &Call) -> bool {
        self.ready(call)
    }

    fn run(&mut self, client: u8, call: Call) -> Reply {
        self.run(client, call)
    }

    fn entry(client: u8, reply: &Reply) -> Turn {
        reply.entry(client)
    }
}
