//! Writes a film, part by part.

ghost use Rattle.std.specs.Prelude.{◌≡◌, ◌+◌, ◌*◌, ◌^◌, ◌<◌, ◌≤◌, length, flat_map, IfOk, OnOk, IfErr};
ghost use Rattle.wf_io.specs.Bytes.{Puts, PutsPart};
ghost use Rattle.wf_io.specs.Causes.{HasCause};
ghost use Rattle.wf_image.specs.Bitmap.{pixel_bytes};
ghost use Rattle.wf_film.specs.Film.{magic, frame_of, frame_bytes, frame_head, turn_bytes, tail_bytes};
ghost use Rattle.wf_film.specs.Stands.{IsFrameIn};

use crate::FRAME_BYTES;
use crate::form::FilmForm;
use crate::pieces::{
    END, bytes_of_turn, head_of_journal, head_with_begin, head_without_begin, magic_of,
};
use std::marker::Model;
use wf_calls::Order;
use wf_image::Image;
use wf_io::{Sink, WriteStop, write_all};
use wf_pixel::MOST_SIDE;

/// Writes one film of one form into one sink. Every `written` counts from the film's start: where a call stops, just
/// the first `written` bytes of the parts, in their order, were put. No call can lack memory.
#[derive(Drop)]
pub struct Writer {
    form: FilmForm,
    written: usize,
}

impl Model for Writer {
    ghost use Rattle.wf_film.specs.Film.{Writing};

    ghost Value = { Writing };

    ghost view = { λ w. record { form = w.form; written = w.written } };
}

impl Writer {
    /// Begins a film of `form` in `k`: puts the magic, as one piece.
    pub fn new<K: Sink>(k: &mut K, form: FilmForm) -> Result<Writer, WriteStop>
        ensures all { OnOk result (Puts K.took k.old k.new (magic form)) }
        ensures begun { IfOk result (λ writer. writer ≡ record { form = form; written = length (magic form) }) }
        ensures part { IfErr result (λ stop. PutsPart K.took k.old k.new 0 (magic form) stop.written) }
        ensures cause { HasCause (K.faults k.old) (K.faults k.new) result }
    {
        let mut writer = Writer { form, written: 0 };
        writer.put(k, &magic_of(form))?;
        Ok(writer)
    }

    /// Puts a frame into `k`: its head as one piece, and its pixels as one piece. `port` is from 1 to 4, `tick` is its tick,
    /// `begin` is the place in the journal, from 0, of the entry that began the frame, and `image` has 4 bytes a pixel. Form 1
    /// leaves out the begin.
    pub fn frame<K: Sink>(
        &mut self,
        k: &mut K,
        port: u8,
        tick: u32,
        begin: u32,
        image: &Image,
    ) -> Result<(), WriteStop>
        requires low_port { 1 ≤ port }
        requires high_port { port ≤ 4 }
        requires pixels { pixel_bytes image.now.format ≡ 4 }
        requires few { self.old.written < 2 ^ 62 }
        ensures all { OnOk result (Puts K.took k.old k.new (frame_bytes self.old.form (frame_of port tick begin image.now))) }
        ensures written { OnOk result (self.new.written
            ≡ self.old.written + length (frame_bytes self.old.form (frame_of port tick begin image.now))) }
        ensures form { self.new.form ≡ self.old.form }
        ensures most { OnOk result (self.new.written ≤ self.old.written + FRAME_BYTES) }
        ensures part { IfErr result (λ stop. PutsPart K.took k.old k.new self.old.written
            (frame_bytes self.old.form (frame_of port tick begin image.now)) stop.written) }
        ensures stopped { IfErr result (λ stop. self.new.written ≡ stop.written) }
        ensures stands { IsFrameIn self.old.form (frame_of port tick begin image.now) }
        ensures cause { HasCause (K.faults k.old) (K.faults k.new) result }
    {
        prove_frame(self.form, port, tick, begin, image);
        self.put_head(k, port, tick, begin, image)?;
        self.put(k, image.bytes())
    }

    /// Ends the film in `k`: puts `J` with the count of `order` as one piece, each entry as one piece, and `E` as one piece.
    pub fn finish<K: Sink>(mut self, k: &mut K, order: &Order) -> Result<(), WriteStop>
        requires few { self.written < 2 ^ 62 }
        requires turns { length order.now < 2 ^ 32 }
        ensures all { OnOk result (Puts K.took k.old k.new (tail_bytes order.now)) }
        ensures part { IfErr result (λ stop. PutsPart K.took k.old k.new self.written (tail_bytes order.now) stop.written) }
        ensures cause { HasCause (K.faults k.old) (K.faults k.new) result }
    {
        self.put(k, &head_of_journal(order))?;
        self.put_turns(k, order)?;
        self.put(k, &END)
    }

    /// Puts what stands before a frame's pixels, as one piece.
    fn put_head<K: Sink>(
        &mut self,
        k: &mut K,
        port: u8,
        tick: u32,
        begin: u32,
        image: &Image,
    ) -> Result<(), WriteStop>
        requires few { self.old.written < 2 ^ 62 }
        ensures all { OnOk result (Puts K.took k.old k.new (frame_head self.old.form (frame_of port tick begin image.now))) }
        ensures written { OnOk result (self.new.written
            ≡ self.old.written + length (frame_head self.old.form (frame_of port tick begin image.now))) }
        ensures form { self.new.form ≡ self.old.form }
        ensures most { OnOk result (self.new.written ≤ self.old.written + 14) }
        ensures small { image.now.size.w * image.now.size.h ≤ MOST_SIDE * MOST_SIDE }
        ensures part { IfErr result (λ stop. PutsPart K.took k.old k.new self.old.written
            (frame_head self.old.form (frame_of port tick begin image.now)) stop.written) }
        ensures stopped { IfErr result (λ stop. self.new.written ≡ stop.written) }
        ensures cause { HasCause (K.faults k.old) (K.faults k.new) result }
    {
        match self.form {
            FilmForm::One => self.put(k, &head_without_begin(port, tick, image)),
            FilmForm::Two => self.put(k, &head_with_begin(port, tick, begin, image)),
        }
    }

    /// Puts the entries of the journal, each as one piece.
    fn put_turns<K: Sink>(&mut self, k: &mut K, order: &Order) -> Result<(), WriteStop>
        requires few { self.old.written < 2 ^ 63 }
        requires turns { length order.now < 2 ^ 32 }
        ensures all { OnOk result (Puts K.took k.old k.new (flat_map turn_bytes order.now)) }
        ensures form { self.new.form ≡ self.old.form }
        ensures written { OnOk result (self.new.written ≡ self.old.written + length (flat_map turn_bytes order.now)) }
        ensures six_each { OnOk result (self.new.written ≡ self.old.written + 6 * length order.now) }
        ensures part { IfErr result (λ stop. PutsPart K.took k.old k.new self.old.written (flat_map turn_bytes order.now) stop.written) }
        ensures cause { HasCause (K.faults k.old) (K.faults k.new) result }
    {
        for turn in order.turns() {
            self.put(k, &bytes_of_turn(*turn))?;
        }
        Ok(())
    }

    /// Puts one piece, and counts what was written of it.
    fn put<K: Sink>(&mut self, k: &mut K, bytes: &[u8]) -> Result<(), WriteStop>
        requires fits { self.old.written + length bytes.now < 2 ^ 64 }
        ensures all { OnOk result (Puts K.took k.old k.new bytes.now) }
        ensures form { self.new.form ≡ self.old.form }
        ensures written { OnOk result (self.new.written ≡ self.old.written + length bytes.now) }
        ensures part { IfErr result (λ stop. PutsPart K.took k.old k.new self.old.written bytes.now stop.written) }
        ensures stopped { IfErr result (λ stop. self.new.written ≡ stop.written) }
        ensures cause { HasCause (K.faults k.old) (K.faults k.new) result }
    {
        match write_all(k, bytes) {
            Ok(()) => {
                self.written += bytes.len();
                Ok(())
            }
            Err(stop) => {
                self.written += stop.written;
                Err(WriteStop {
                    written: self.written,
                })
            }
        }
    }
}

/// Shows that all numbers of the frame of `image` at `port`, in `tick`, as begun at `begin`, are in the ranges of a film of `form`.
/// It changes nothing.
fn prove_frame(form: FilmForm, port: u8, tick: u32, begin: u32, image: &Image)
    requires low_port { 1 ≤ port }
    requires high_port { port ≤ 4 }
    requires pixels { pixel_bytes image.now.format ≡ 4 }
    ensures { IsFrameIn form (frame_of port tick begin image.now) }
{
    let _form = form;
    let _sides = image.size();
    let _bytes = image.bytes();
}
