//! The fields of a session's input: what is read from a source that may cut its bytes anywhere.

ghost use Rattle.std.specs.Prelude.{◌≡◌, ◌≤◌, ◌<◌, ◌+◌, ◌^◌, ◌&&◌, nat_le, length, take, IfOk, OnErr};
ghost use Rattle.std.specs.Io.KnownBytes.{Consumes, IsAtEnd};
ghost use Rattle.wf_io.specs.Causes.{HasCause};
ghost use Rattle.wf_wire.specs.Messages.{argument, is_of_kind};
ghost use Rattle.wf_wire.specs.Reading.{number, number_within};
ghost use Rattle.wf_wire.specs.Taking.{Fills, Finds, IsCaused, TakesFewer};

use crate::kind::{Kind, range_of};
use crate::stop::ServeStop;
use byteorder::{BigEndian, ByteOrder};
use wf_io::{Failed, Source};

/// Fills `into` from `input`, in as many takes as it needs; fewer bytes come only where the source ends.
pub fn fill<I: Source>(input: &mut I, into: &mut [u8]) -> Result<usize, Failed>
    ensures within { IfOk result (λ n. n ≤ length into.new) }
    ensures bytes { IfOk result (λ n. Consumes (I.left input.old) (I.left input.new) (take n into.new)) }
    ensures short { IfOk result (λ n. n < length into.new → IsAtEnd (I.left input.new)) }
    ensures part { OnErr result (TakesFewer (I.left input.old) (I.left input.new) (length into.new)) }
    ensures size { length into.new ≡ length into.old }
    ensures cause { HasCause (I.faults input.old) (I.faults input.new) result }
{
    let mut filled = 0usize;
    while filled < into.len() {
        match input.take(&mut into[filled..]) {
            Ok(0) => return Ok(filled),
            Ok(n) => filled += n,
            Err(failed) => return Err(failed),
        }
    }
    Ok(filled)
}

/// Fills `into`, the piece of one field, and moves the place `at` behind it.
fn fill_field<I: Source>(input: &mut I, at: &mut u64, into: &mut [u8]) -> Result<(), ServeStop>
    requires few { at.old < 2 ^ 62 }
    requires short { length into.old ≤ 8 }
    ensures field { Fills (I.left input.old) at.old (I.left input.new) at.new into.new result }
    ensures size { length into.new ≡ length into.old }
    ensures least { at.old ≤ at.new }
    ensures most { at.new ≤ at.old + length into.old }
    ensures caused { IsCaused (I.faults input.old) (I.faults input.new) result }
{
    let n = match fill(input, into) {
        Ok(n) => n,
        Err(_) => return Err(ServeStop::ReadFault),
    };
    if n < into.len() {
        return Err(ServeStop::BadMessage {
            at: *at + n as u64,
            rule: 4,
        });
    }
    *at += n as u64;
    Ok(())
}

/// Reads a number of `width` bytes at the place `at`.
fn number_of<I: Source>(input: &mut I, at: &mut u64, width: usize) -> Result<u64, ServeStop>
    requires few { at.old < 2 ^ 62 }
    requires one { 1 ≤ width }
    requires eight { width ≤ 8 }
    ensures finds { Finds (number width) (I.left input.old) at.old (I.left input.new) at.new result }
    ensures least { at.old ≤ at.new }
    ensures most { at.new ≤ at.old + width }
    ensures caused { IsCaused (I.faults input.old) (I.faults input.new) result }
{
    let mut bytes = [0u8; 8];
    match fill_field(input, at, &mut bytes[..width]) {
        Ok(()) => Ok(BigEndian::read_uint(&bytes, width)),
        Err(stop) => Err(stop),
    }
}

/// Tells whether a number is between `least` and `most`.
fn is_within(least: u64, most: u64, number: u64) -> bool
    ensures { result ≡ (nat_le least number && nat_le number most) }
{
    least <= number && number <= most
}

/// Reads a number of `width` bytes, which is to be between `least` and `most`.
#[tactic(auto, using(std::proofs::lemmas::Bool::Decides::nat_tests))]
pub(crate) fn number_within<I: Source>(
    input: &mut I,
    at: &mut u64,
    least: u64,
    most: u64,
    width: usize,
) -> Result<u64, ServeStop>
    requires few { at.old < 2 ^ 62 }
    requires one { 1 ≤ width }
    requires eight { width ≤ 8 }
    ensures finds { Finds (number_within least most width) (I.left input.old) at.old (I.left input.new) at.new result }
    ensures low { IfOk result (λ n. least ≤ n) }
    ensures high { IfOk result (λ n. n ≤ most) }
    ensures most { at.new ≤ at.old + width }
    ensures caused { IsCaused (I.faults input.old) (I.faults input.new) result }
{
    let place = *at;
    match number_of(input, at, width) {
        Ok(number) => {
            if is_within(least, most, number) {
                Ok(number)
            } else {
                Err(ServeStop::BadMessage { at: place, rule: 1 })
            }
        }
        Err(stop) => Err(stop),
    }
}

/// Tells whether an argument of these bits is in the range of `kind`.
pub(crate) fn is_of_kind(kind: Kind, bits: u64) -> bool
    ensures { result ≡ is_of_kind kind bits }
{
    let value = bits.cast_signed();
    let (least, most) = range_of(kind);
    least <= value && value <= most
}

/// Reads an argument of `kind`: the bits of its number.
pub(crate) fn argument_of<I: Source>(
    input: &mut I,
    at: &mut u64,
    kind: Kind,
) -> Result<u64, ServeStop>
    requires few { at.old < 2 ^ 62 }
    ensures finds { Finds (argument kind) (I.left input.old) at.old (I.left input.new) at.new result }
    ensures least { at.old ≤ at.new }
    ensures most { at.new ≤ at.old + 8 }
    ensures caused { IsCaused (I.faults input.old) (I.faults input.new) result }
{
    let place = *at;
    match number_of(input, at, 8) {
        Ok(bits) => {
            if is_of_kind(kind, bits) {
                Ok(bits)
            } else {
                Err(ServeStop::BadMessage { at: place, rule: 3 })
            }
        }
        Err(stop) => Err(stop),
    }
}
