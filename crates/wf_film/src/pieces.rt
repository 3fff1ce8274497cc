//! The small pieces of a film, made on the stack.

ghost use Rattle.std.specs.Prelude.{◌≡◌, ℕ, ◌*◌, ◌^◌, ◌<◌, ◌≤◌, length};
ghost use Rattle.wf_film.specs.Film.{frame_head, frame_of, journal_head, magic, turn_bytes};
ghost use Rattle.wf_film.specs.declared.form.FilmForm.TheVariants as forms;

use crate::form::FilmForm;
use byteorder::{BigEndian, ByteOrder};
use wf_calls::{Order, Turn};
use wf_image::Image;
use wf_pixel::MOST_SIDE;

/// What a film of form 1 begins with.
pub(crate) const MAGIC: [u8; 4] = *b"WFF1";

/// What a film of form 2 begins with.
pub(crate) const MAGIC_OF_TWO: [u8; 4] = *b"WFF2";

/// What a film ends with.
pub(crate) const END: [u8; 1] = *b"E";

/// What a film of a form begins with.
pub(crate) fn magic_of(form: FilmForm) -> [u8; 4]
    ensures { result ≡ magic form }
{
    match form {
        FilmForm::One => MAGIC,
        FilmForm::Two => MAGIC_OF_TWO,
    }
}

/// What stands before a frame's pixels in form 1.
pub(crate) fn head_without_begin(port: u8, tick: u32, image: &Image) -> [u8; 10]
    ensures bytes { (begin : ℕ) → result ≡ frame_head forms.One (frame_of port tick begin image.now) }
    ensures small { image.now.size.w * image.now.size.h ≤ MOST_SIDE * MOST_SIDE }
{
    let size = image.size();
    let mut head = [b'F'; 10];
    head[1] = port;
    BigEndian::write_u32(&mut head[2..], tick);
    BigEndian::write_u16(&mut head[6..], size.w as u16);
    BigEndian::write_u16(&mut head[8..], size.h as u16);
    head
}

/// What stands before a frame's pixels in form 2.
pub(crate) fn head_with_begin(port: u8, tick: u32, begin: u32, image: &Image) -> [u8; 14]
    ensures bytes { result ≡ frame_head forms.Two (frame_of port tick begin image.now) }
    ensures small { image.now.size.w * image.now.size.h ≤ MOST_SIDE * MOST_SIDE }
{
    let size = image.size();
    let mut head = [b'F'; 14];
    head[1] = port;
    BigEndian::write_u32(&mut head[2..], tick);
    BigEndian::write_u32(&mut head[6..], begin);
    BigEndian::write_u16(&mut head[10..], size.w as u16);
    BigEndian::write_u16(&mut head[12..], size.h as u16);
    head
}

/// What stands before the entries of the journal.
pub(crate) fn head_of_journal(order: &Order) -> [u8; 5]
    requires { length order.now < 2 ^ 32 }
    ensures { result ≡ journal_head order.now }
{
    let mut head = [b'J'; 5];
    BigEndian::write_u32(&mut head[1..], order.turns().len() as u32);
    head
}

/// An entry of the journal.
pub(crate) fn bytes_of_turn(turn: Turn) -> [u8; 6]
    ensures { result ≡ turn_bytes turn }
{
    let mut bytes = [turn.client; 6];
    bytes[1] = turn.code;
    BigEndian::write_u32(&mut bytes[2..], turn.value);
    bytes
}
