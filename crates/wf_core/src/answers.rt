//! Answers: a value, or the refusal, which the register of a live device takes.

ghost use Rattle.wf_calls.specs.Replies.{bare};
ghost use Rattle.wf_core.specs.Steps.{KeepsAnswer, StepsOn};

use wf_calls::{Answer, Refusal, Reply};
use wf_objects::Objects;
use wf_stream::Store;

/// The answer of a call of a device that was carried out or refused.
pub(crate) fn answer(
    objects: &mut Objects,
    store: &Store,
    device: u32,
    done: Result<u32, Refusal>,
) -> Answer
    ensures steps { StepsOn device objects.old objects.new store.now done (bare result) }
    ensures stays { KeepsAnswer device objects.old objects.new store.now done (bare result) }
{
    match done {
        Ok(value) => Answer::done(value),
        Err(refused) => {
            objects.record(device, refused.code);
            Answer::refused(refused)
        }
    }
}

/// The same, as a reply with which nothing comes.
pub(crate) fn reply(
    objects: &mut Objects,
    store: &Store,
    device: u32,
    done: Result<u32, Refusal>,
) -> Reply
    ensures steps { StepsOn device objects.old objects.new store.now done result }
    ensures stays { KeepsAnswer device objects.old objects.new store.now done result }
{
    Reply::bare(answer(objects, store, device, done))
}
