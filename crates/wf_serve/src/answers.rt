//! Answers, as they are put.

ghost use Rattle.std.specs.Prelude.{◌≡◌, ◌+◌, ◌≤◌, ◌++◌, [], IfOk, length, vec_capacity};
ghost use Rattle.byteorder.specs.Endian.{big_bytes};
ghost use Rattle.wf_serve.specs.AnswerBytes.{answer_bytes, answer_to, head_bytes};
ghost use Rattle.wf_wire.specs.Answers.{image_bytes};

use crate::screen::{FULL, bytes_of};
use byteorder::{BigEndian, ByteOrder};
use std::alloc::Global;
use std::marker::Model;
use wf_host::Told;
use wf_image::Image;
use wf_words::NoMemory;

/// The bytes of an answer before its payload.
pub(crate) const HEAD: usize = 11;

/// The bytes of a picture's sides.
const SIDES: usize = 4;

/// Room for the answers to one message beside a picture: what is told may have 4,096 bytes, and a tick answers nine clients and the
/// output.
pub(crate) const SMALL: usize = 8192;

/// Room for the answers to one message, of which one may come with a picture.
pub(crate) const ROOM: usize = FULL + SMALL;

/// The answers to one message, one after another, with room for them.
#[derive(Drop)]
pub struct Answers {
    bytes: Vec<u8>,
}

impl Model for Answers {
    ghost use Rattle.std.specs.Prelude.{List, ℕ, ◌≤◌, vec_capacity};
    ghost use Rattle.wf_serve.specs.declared.answers.TheConstants.{ROOM};

    ghost Value = { List ℕ };

    ghost view = { λ a. a.bytes.items };

    ghost invariant = { λ a. ROOM ≤ vec_capacity a.bytes };
}

/// Appends bytes for which there is room.
pub(crate) fn append(held: &mut Vec<u8>, bytes: &[u8])
    requires { length held.old.items + length bytes.now ≤ vec_capacity held.old }
    ensures items { held.new.items ≡ held.old.items ++ bytes.now }
    ensures room { vec_capacity held.old ≤ vec_capacity held.new }
{
    let _ = held.extend_from_slice(bytes);
}

/// Makes what stands before a payload of `count` bytes.
fn head_of(client: u8, number: u8, told: Told, count: usize) -> [u8; 11]
    requires { count ≤ ROOM }
    ensures { result ≡ head_bytes client number told count }
{
    let mut head = [told.code; 11];
    BigEndian::write_u32(&mut head, 7 + count as u32);
    head[4] = client;
    head[5] = number;
    BigEndian::write_u32(&mut head[7..], told.value);
    head
}

/// Makes what stands before the pixels of a picture.
fn sides_of(image: &Image) -> [u8; SIDES]
    ensures { result ≡ big_bytes 2 image.now.size.w ++ big_bytes 2 image.now.size.h }
{
    let size = image.size();
    let mut sides = [0u8; SIDES];
    BigEndian::write_u16(&mut sides, size.w as u16);
    BigEndian::write_u16(&mut sides[2..], size.h as u16);
    sides
}

/// Appends a picture with its sides, for which there is room.
fn append_picture(held: &mut Vec<u8>, image: &Image)
    requires { length held.old.items + SIDES + FULL ≤ vec_capacity held.old }
    ensures items { held.new.items ≡ held.old.items ++ image_bytes image.now }
    ensures room { vec_capacity held.old ≤ vec_capacity held.new }
{
    append(held, &sides_of(image));
    append(held, bytes_of(image));
}

impl Answers {
    /// Makes room for the answers to one message.
    pub fn new(alloc: Global) -> Result<Answers, NoMemory>
        ensures { IfOk result (λ answers. answers ≡ []) }
    {
        Ok(Answers {
            bytes: Vec::with_capacity(alloc, ROOM)?,
        })
    }

    /// Returns the bytes of the answers.
    pub fn bytes(&self) -> &[u8]
        ensures { result.now ≡ self.now }
    {
        &self.bytes
    }

    /// Lets the answers go.
    pub fn clear(&mut self)
        ensures { self.new ≡ [] }
    {
        self.bytes.clear();
    }

    /// Puts the answer to `client` and the message of `number`: what is `told`, and a `payload`.
    pub(crate) fn put(&mut self, client: u8, number: u8, told: Told, payload: &[u8])
        requires { length self.old + HEAD + length payload.now ≤ ROOM }
        ensures put { self.new ≡ self.old ++ answer_bytes (answer_to client number told payload.now) }
        ensures length { length self.new ≡ length self.old + HEAD + length payload.now }
    {
        append(
            &mut self.bytes,
            &head_of(client, number, told, payload.len()),
        );
        append(&mut self.bytes, payload);
    }

    /// Puts the answer to `client` and the message of `number`: what is `told`, and a picture with its sides.
    pub(crate) fn put_picture(&mut self, client: u8, number: u8, told: Told, image: &Image)
        requires { length self.old ≤ HEAD }
        ensures { self.new ≡ self.old ++ answer_bytes (answer_to client number told (image_bytes image.now)) }
    {
        let count = SIDES + bytes_of(image).len();
        append(&mut self.bytes, &head_of(client, number, told, count));
        append_picture(&mut self.bytes, image);
    }
}
