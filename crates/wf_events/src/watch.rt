//! What is seen of a machine before and after a turn, and what happened between two looks.

ghost use Rattle.std.specs.Prelude.{◌≡◌, ◌+◌, ◌-◌, ◌≤◌, ◌++◌, length, map};
ghost use Rattle.wf_events.specs.Happenings.{apart, released};
ghost use Rattle.wf_events.specs.Watching.{IsLook, attached_at, between_from, bound_at, happened, is_bound, waiting_at};

use crate::happening::Happening;
use arrayvec::ArrayVec;
use wf_calls::Transition;
use wf_machine::Machine;
use wf_model::{Pipeline, Port};

/// What waits at a pipeline: when its request shows, if it has one, and whether a binding waits for its port's next frame.
#[derive(Clone, Copy, Debug, Default, PartialEq, Eq)]
pub(crate) struct Waiting {
    request: Option<Transition>,
    pending: bool,
}

/// What is seen of a machine: what waits at its pipelines, whether a display is attached to each port, and how many streams it keeps.
#[derive(Drop)]
pub(crate) struct Look {
    waiting: ArrayVec<Waiting, 8>,
    attached: ArrayVec<bool, 4>,
    streams: u32,
}

/// Returns what waits at `pipeline`.
fn waiting_at(pipeline: &Pipeline) -> Waiting
    ensures { result ≡ waiting_at pipeline.now }
{
    Waiting {
        request: match &pipeline.request {
            Some(request) => Some(request.transition),
            None => None,
        },
        pending: pipeline.pending.is_some(),
    }
}

/// Returns what waits at each of `pipelines`.
fn all_waiting(pipelines: &[Pipeline]) -> ArrayVec<Waiting, 8>
    requires { length pipelines.now ≤ 8 }
    ensures { result.items ≡ map waiting_at pipelines.now }
{
    let mut waiting = ArrayVec::new();
    for pipeline in pipelines {
        waiting.push(waiting_at(pipeline));
    }
    waiting
}

/// Returns whether a display is attached to each of `ports`.
fn all_attached(ports: &[Port]) -> ArrayVec<bool, 4>
    requires { length ports.now ≤ 4 }
    ensures { result.items ≡ map (λ p. p.attached) ports.now }
{
    let mut attached = ArrayVec::new();
    for port in ports {
        attached.push(port.attached);
    }
    attached
}

/// Looks at `machine`.
pub(crate) fn look_at(machine: &Machine) -> Look
    ensures { IsLook machine.now result }
{
    Look {
        waiting: all_waiting(machine.pipelines()),
        attached: all_attached(machine.ports()),
        streams: machine.held().streams,
    }
}

/// What happened in a turn: at most one happening of each pipeline and of each port, and the streams that were dropped.
pub(crate) type Happenings = ArrayVec<Happening, 13>;

/// Checks whether a pipeline was bound between two looks.
fn is_bound(before: Waiting, after: Waiting) -> bool
    ensures { result ≡ is_bound before after }
{
    let taken = before.request == Some(Transition::Now) && after.request.is_none();
    taken || before.pending && !after.pending
}

/// Adds to `found` the pipelines that were bound between two looks, by rising number.
fn add_bound(found: &mut Happenings, before: &[Waiting], after: &[Waiting])
    requires few { length before.now ≤ 8 }
    requires room { length found.old.items ≡ 0 }
    ensures found { found.new.items ≡ found.old.items ++ between_from bound_at 1 before.now after.now }
    ensures most { length found.new.items ≤ 8 }
{
    for place in 0..before.len().min(after.len()) {
        if is_bound(before[place], after[place]) {
            found.push(Happening::Bind {
                pipe: place as u32 + 1,
            });
        }
    }
}

/// Adds to `found` the ports that were attached or detached between two looks, by rising number.
fn add_attached(found: &mut Happenings, before: &[bool], after: &[bool])
    requires few { length before.now ≤ 4 }
    requires room { length found.old.items ≤ 8 }
    ensures found { found.new.items ≡ found.old.items ++ between_from attached_at 1 before.now after.now }
    ensures most { length found.new.items ≤ 12 }
{
    for place in 0..before.len().min(after.len()) {
        let on = after[place];
        if before[place] != on {
            found.push(Happening::Attach {
                port: place as u32 + 1,
                on,
            });
        }
    }
}

/// Adds to `found` how many of `before` streams were dropped where `after` are left, if any were.
fn add_released(found: &mut Happenings, before: u32, after: u32)
    requires { length found.old.items ≤ 12 }
    ensures { found.new.items ≡ found.old.items ++ released (before - after) }
{
    let count = before.saturating_sub(after);
    if count > 0 {
        found.push(Happening::Released { count });
    }
}

/// Finds what happened between two looks.
pub(crate) fn happened(before: &Look, after: &Look) -> Happenings
    ensures { result.items ≡ happened before.now after.now }
{
    let mut found = Happenings::new();
    add_bound(&mut found, &before.waiting, &after.waiting);
    add_attached(&mut found, &before.attached, &after.attached);
    add_released(&mut found, before.streams, after.streams);
    found
}
