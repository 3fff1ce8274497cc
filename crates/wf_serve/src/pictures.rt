//! How the pictures of ports are put.

ghost use Rattle.std.specs.Prelude.{◌≡◌, ◌*◌, ◌++◌, IfOk, IsTrue, length};
ghost use Rattle.wf_host.specs.Reading.{row_bytes};
ghost use Rattle.wf_host.specs.Rows.{stands};
ghost use Rattle.wf_io.specs.Causes.{HasCause};
ghost use Rattle.byteorder.specs.Endian.{big_bytes};
ghost use Rattle.wf_serve.specs.Pictures.{band_bytes, band_or_whole, film_bytes, frame_bytes, head_bytes, last_of, rows_bytes};
ghost use Rattle.wf_serve.specs.Putting.{Writes};
ghost use Rattle.wf_serve.specs.RoomFor.{room_for};

use crate::bands::Band;
use crate::changes::{changed_band, rows_in};
use crate::screen::last_of;
use byteorder::{BigEndian, ByteOrder};
use std::alloc::Global;
use std::marker::Model;
use wf_guard::{Form, Screen};
use wf_host::{Order, copy_rows, stands};
use wf_image::{Image, bytes_of_pixel};
use wf_io::{Sink, WriteStop, write_all};
use wf_pixel::MOST_SIDE;
use wf_words::NoMemory;

/// The form in which pictures are put, with room for the rows of one.
#[derive(Drop)]
pub struct Pictures {
    form: Form,
    room: Vec<u8>,
}

impl Model for Pictures {
    ghost use Rattle.std.specs.Prelude.{◌≡◌, length};
    ghost use Rattle.wf_guard.specs.declared.form.Form.{Form};
    ghost use Rattle.wf_serve.specs.RoomFor.{room_for};

    ghost Value = { Form };

    ghost view = { λ p. p.form };

    ghost invariant = { λ p. length p.room.items ≡ room_for p.form };
}

/// Returns how much room the rows of a picture may take in a `form`.
fn room_for(form: Form) -> usize
    ensures { result ≡ room_for form }
{
    match form {
        Form::Film | Form::Bands => 0,
        Form::Rows { stride } => stride as usize * MOST_SIDE as usize,
    }
}

/// Makes what stands before the pixels of a port's picture, with a `letter` that says what they are.
fn head_of(letter: u8, tick: u32, port: u8, image: &Image) -> [u8; 10]
    ensures { result ≡ head_bytes letter tick port image.now }
{
    let size = image.size();
    let mut head = [letter; 10];
    head[1] = port;
    BigEndian::write_u32(&mut head[2..], tick);
    BigEndian::write_u16(&mut head[6..], size.w as u16);
    BigEndian::write_u16(&mut head[8..], size.h as u16);
    head
}

/// Makes the number of the first row of a band, and how many it has.
fn place_of(band: &Band) -> [u8; 4]
    ensures { result ≡ big_bytes 2 band.now.first ++ big_bytes 2 band.now.count }
{
    let mut place = [0u8; 4];
    BigEndian::write_u16(&mut place, band.first);
    BigEndian::write_u16(&mut place[2..], band.count);
    place
}

/// Puts all of `bytes`.
fn put<K: Sink>(out: &mut K, bytes: &[u8]) -> Result<(), WriteStop>
    ensures writes { Writes K.took out.old out.new bytes.now result }
    ensures cause { HasCause (K.faults out.old) (K.faults out.new) result }
{
    write_all(out, bytes)
}

/// Puts two pieces of bytes, one after the other.
fn put_two<K: Sink>(out: &mut K, a: &[u8], b: &[u8]) -> Result<(), WriteStop>
    ensures writes { Writes K.took out.old out.new (a.now ++ b.now) result }
    ensures cause { HasCause (K.faults out.old) (K.faults out.new) result }
{
    match put(out, a) {
        Ok(()) => put(out, b),
        Err(stop) => Err(stop),
    }
}

/// Puts three pieces of bytes, one after another.
fn put_three<K: Sink>(out: &mut K, a: &[u8], b: &[u8], c: &[u8]) -> Result<(), WriteStop>
    ensures writes { Writes K.took out.old out.new (a.now ++ (b.now ++ c.now)) result }
    ensures cause { HasCause (K.faults out.old) (K.faults out.new) result }
{
    match put(out, a) {
        Ok(()) => put_two(out, b, c),
        Err(stop) => Err(stop),
    }
}

/// Puts the picture of a port as a frame of a film, of which no byte is copied.
fn put_film<K: Sink>(out: &mut K, tick: u32, port: u8, image: &Image) -> Result<(), WriteStop>
    ensures writes { Writes K.took out.old out.new (film_bytes tick port image.now) result }
    ensures cause { HasCause (K.faults out.old) (K.faults out.new) result }
{
    put_two(out, &head_of(b'F', tick, port, image), image.bytes())
}

/// Puts the rows of a port's picture that are others than in `last`, the bytes of a picture of the same sides.
fn put_band<K: Sink>(
    out: &mut K,
    tick: u32,
    port: u8,
    image: &Image,
    last: &[u8],
) -> Result<(), WriteStop>
    requires { length last.now ≡ length image.now.bytes }
    ensures writes { Writes K.took out.old out.new (band_bytes tick port image.now last.now) result }
    ensures cause { HasCause (K.faults out.old) (K.faults out.new) result }
{
    let band = changed_band(image, last);
    put_three(
        out,
        &head_of(b'B', tick, port, image),
        &place_of(&band),
        rows_in(image, &band),
    )
}

/// Puts what changed of a port's picture since `screen` showed one of its sides, or the whole where it did not.
fn put_changes<K: Sink>(
    out: &mut K,
    tick: u32,
    port: u8,
    image: &Image,
    screen: &Screen,
) -> Result<(), WriteStop>
    ensures writes { Writes K.took out.old out.new (band_or_whole tick port image.now (last_of image.now screen.now)) result }
    ensures cause { HasCause (K.faults out.old) (K.faults out.new) result }
{
    match last_of(screen, image) {
        Some(last) => put_band(out, tick, port, image, last),
        None => put_film(out, tick, port, image),
    }
}

/// Lays the rows of an `image` out in `room`, `stride` bytes apart, with zeros between them.
fn lay_rows(room: &mut [u8], stride: usize, image: &Image)
    requires room { length room.old ≡ stride * image.now.size.h }
    requires stands { IsTrue (stands (stride * image.now.size.h) stride (row_bytes image.now) image.now.size.h) }
    ensures { room.new ≡ rows_bytes stride image.now }
{
    let size = image.size();
    let row = size.w as usize * bytes_of_pixel(image.format());
    room.fill(0);
    copy_rows(
        room,
        stride,
        image.bytes(),
        row,
        row,
        size.h as usize,
        Order::Bgra,
    );
}

/// Puts the rows of an `image`, `stride` bytes apart, which are laid out in `room`.
fn put_rows<K: Sink>(
    out: &mut K,
    room: &mut [u8],
    stride: u32,
    image: &Image,
) -> Result<(), WriteStop>
    requires { length room.old ≡ stride * MOST_SIDE }
    ensures size { length room.new ≡ length room.old }
    ensures writes { Writes K.took out.old out.new (rows_bytes stride image.now) result }
    ensures cause { HasCause (K.faults out.old) (K.faults out.new) result }
{
    let size = image.size();
    let stride = stride as usize;
    let row = size.w as usize * bytes_of_pixel(image.format());
    let count = stride * size.h as usize;
    if !stands(count, stride, row, size.h as usize) {
        return Ok(());
    }
    lay_rows(&mut room[..count], stride, image);
    put(out, &room[..count])
}

impl Pictures {
    /// Makes room for the pictures of a `form`.
    pub fn new(alloc: Global, form: Form) -> Result<Pictures, NoMemory>
        ensures { IfOk result (λ pictures. pictures ≡ form) }
    {
        Ok(Pictures {
            form,
            room: vec![in alloc; 0u8; room_for(form)]?,
        })
    }

    /// Puts the picture of a port of which `screen` shows the last one.
    pub fn put<K: Sink>(
        &mut self,
        out: &mut K,
        tick: u32,
        port: u8,
        image: &Image,
        screen: &Screen,
    ) -> Result<(), WriteStop>
        ensures form { self.new ≡ self.old }
        ensures writes { Writes K.took out.old out.new (frame_bytes self.old tick port image.now screen.now) result }
        ensures cause { HasCause (K.faults out.old) (K.faults out.new) result }
    {
        match self.form {
            Form::Film => put_film(out, tick, port, image),
            Form::Bands => put_changes(out, tick, port, image, screen),
            Form::Rows { stride } => {
                if port == 1 {
                    put_rows(out, &mut self.room, stride, image)
                } else {
                    Ok(())
                }
            }
        }
    }
}
