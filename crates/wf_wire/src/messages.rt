//! Messages, one after another, before what they ask for is known.

ghost use Rattle.std.specs.Prelude.{◌≡◌, ◌≤◌, ◌<◌, ◌+◌, ◌^◌, length, max, slice_get, IfOk, IfSome};
ghost use Rattle.wf_words.specs.Keyed.{nth};
ghost use Rattle.wf_wire.specs.Forms.{forms};
ghost use Rattle.wf_wire.specs.Messages.{arguments, first, spelled};
ghost use Rattle.wf_wire.specs.Spelling.{spelled_if};
ghost use Rattle.wf_wire.specs.Taking.{Finds, FindsNext, IsCaused, seen};

use crate::MESSAGES_END;
use crate::fields::{argument_of, fill};
use crate::form::{FORMS, Form, MOST_ARGUMENTS, kinds_of};
use crate::kind::Kind;
use crate::stop::ServeStop;
use arrayvec::ArrayVec;
use wf_io::Source;

/// A message as it was read: which one it is, and the bits of its arguments.
#[derive(Drop)]
pub(crate) struct Heard {
    pub form: Form,
    pub bits: ArrayVec<u64, MOST_ARGUMENTS>,
}

/// Returns the message at a place of `forms`, which is counted from 0.
fn form_at(forms: &[Form], place: usize) -> Option<Form>
    ensures { result ≡ slice_get forms.now place }
{
    forms.get(place).copied()
}

/// Returns which message has a number, or `None` where none has it.
pub(crate) fn form_of(number: u8) -> Option<Form>
    ensures { result ≡ nth number forms }
{
    if number == 0 {
        return None;
    }
    form_at(&FORMS, usize::from(number) - 1)
}

/// Reads the number of a message at the place `at`, or none where the input ends.
fn first_of<I: Source>(input: &mut I, at: &mut u64) -> Result<Option<u8>, ServeStop>
    requires few { at.old < 2 ^ 62 }
    ensures finds { FindsNext first (I.left input.old) at.old (I.left input.new) at.new result }
    ensures early { IfOk result (λ number. IfSome number (λ _. at.new ≤ MESSAGES_END)) }
    ensures further { IfOk result (λ number. IfSome number (λ _. at.old < at.new)) }
    ensures most { at.new ≤ max at.old MESSAGES_END }
    ensures caused { IsCaused (I.faults input.old) (I.faults input.new) result }
{
    let mut bytes = [0u8; 1];
    let n = match fill(input, &mut bytes) {
        Ok(n) => n,
        Err(_) => return Err(ServeStop::ReadFault),
    };
    if n == 0 {
        return Ok(None);
    }
    if *at >= MESSAGES_END {
        return Err(ServeStop::BadMessage { at: *at, rule: 5 });
    }
    *at += 1;
    Ok(Some(bytes[0]))
}

/// Reads arguments of these `kinds`: the bits of each.
fn arguments_of<I: Source>(
    input: &mut I,
    at: &mut u64,
    kinds: &[Kind],
) -> Result<ArrayVec<u64, MOST_ARGUMENTS>, ServeStop>
    requires few { at.old < 2 ^ 61 }
    requires most { length kinds.now ≤ MOST_ARGUMENTS }
    ensures finds { Finds (arguments kinds.now) (I.left input.old) at.old (I.left input.new) at.new (seen (λ bits. bits.items) result) }
    ensures least { at.old ≤ at.new }
    ensures most { at.new ≤ at.old + 72 }
    ensures caused { IsCaused (I.faults input.old) (I.faults input.new) result }
{
    let mut bits = ArrayVec::new();
    for kind in kinds {
        match argument_of(input, at, *kind) {
            Ok(one) => bits.push(one),
            Err(stop) => return Err(stop),
        }
    }
    Ok(bits)
}

/// Reads the next message at the place `at`, or none where the input ends.
pub(crate) fn next_of<I: Source>(input: &mut I, at: &mut u64) -> Result<Option<Heard>, ServeStop>
    requires few { at.old < 2 ^ 60 }
    ensures finds { FindsNext spelled (I.left input.old) at.old (I.left input.new) at.new (seen spelled_if result) }
    ensures further { IfOk result (λ heard. IfSome heard (λ _. at.old < at.new)) }
    ensures most { at.new ≤ max at.old (MESSAGES_END + 72) }
    ensures caused { IsCaused (I.faults input.old) (I.faults input.new) result }
{
    let place = *at;
    let number = match first_of(input, at) {
        Ok(Some(number)) => number,
        Ok(None) => return Ok(None),
        Err(stop) => return Err(stop),
    };
    let form = match form_of(number) {
        Some(form) => form,
        None => return Err(ServeStop::BadMessage { at: place, rule: 2 }),
    };
    match arguments_of(input, at, kinds_of(form)) {
        Ok(bits) => Ok(Some(Heard { form, bits })),
        Err(stop) => Err(stop),
    }
}
