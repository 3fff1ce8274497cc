//! One round in the life of a stream: it is shown once, and destroyed with all that showed it.

use crate::clients::Client;
use wf_calls::Call;
use wf_machine::Machine;
use wf_pixel::Format;
use wf_scene::ElementAttr;

/// The device and the context of the rounds.
const DEVICE: u32 = 1;

const CONTEXT: u32 = 2;

/// Runs a call and gives its value.
fn run(machine: &mut Machine, client: &mut Client, call: Call) -> u32 {
    let reply = machine.run(0, call);
    let value = reply.value;
    client.take(reply);
    value
}

/// Makes a stream with its source and element, and gives their handles.
fn make(machine: &mut Machine, client: &mut Client) -> [u32; 3] {
    let (device, context) = (DEVICE, CONTEXT);
    let new = Call::StreamNew {
        width: 1,
        height: 1,
        format: Format::Rgba8,
        buffers: 2,
    };
    let stream = run(machine, client, new);
    let new = Call::SourceNew {
        device,
        context,
        stream,
    };
    let source = run(machine, client, new);
    let element = run(machine, client, Call::ElementNew { device, context });
    [stream, source, element]
}

/// Lets the element show the source on the whole target, and inserts it.
fn place(machine: &mut Machine, client: &mut Client, source: u32, element: u32) {
    for (attr, value) in [
        (ElementAttr::Source, [source.into(), 0, 0, 0]),
        (ElementAttr::SrcRect, [0, 0, 1, 1]),
        (ElementAttr::Dest, [0, 0, 1, 1]),
    ] {
        let call = Call::ElementSet {
            device: DEVICE,
            element,
            attr,
            value,
        };
        run(machine, client, call);
    }
    let call = Call::ElementInsert {
        device: DEVICE,
        element,
        below: 0,
    };
    run(machine, client, call);
}

/// Commits the scene.
fn commit(machine: &mut Machine, client: &mut Client) {
    let (device, context) = (DEVICE, CONTEXT);
    run(machine, client, Call::Commit { device, context });
}

/// Runs a call that gives back what the client holds, if it holds it.
fn give(machine: &mut Machine, client: &mut Client, word: &str) {
    if let Some(call) = client.call(&[word]) {
        run(machine, client, call);
    }
}

/// Plays one round on context 2 of device 1, which is active and whose target has one pixel.
pub(crate) fn play(machine: &mut Machine, client: &mut Client) {
    let [stream, source, element] = make(machine, client);
    place(machine, client, source, element);
    run(machine, client, Call::Acquire { stream });
    client.fill(9);
    give(machine, client, "post");
    commit(machine, client);
    run(machine, client, Call::BeginNext { after: 0 });
    give(machine, client, "end");
    let device = DEVICE;
    run(machine, client, Call::ElementDestroy { device, element });
    run(machine, client, Call::SourceDestroy { device, source });
    run(machine, client, Call::StreamDestroy { stream });
    commit(machine, client);
}
