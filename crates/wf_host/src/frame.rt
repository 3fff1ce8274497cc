//! A frame in a place of its own.

ghost use Rattle.std.specs.Prelude.{◌≡◌, IfOk, IfSome, IsSome, IsTrue, None, false, is_some, option_map};
ghost use Rattle.wf_calls.specs.Parts.{is_begin};
ghost use Rattle.wf_calls.specs.Places.{job_in};
ghost use Rattle.wf_calls.specs.Requests.{call_of};
ghost use Rattle.wf_machine.specs.Object.{IsPaintable};
ghost use Rattle.wf_model.specs.Picture.{painted_job};
ghost use Rattle.wf_host.specs.Painted.{IsBegun, IsEnded, IsKept};
ghost use Rattle.wf_host.specs.Reading.{CopiesRows, Reads};

use crate::order::Order;
use crate::rows::{copy_rows, stands};
use std::alloc::Global;
use std::marker::Model;
use wf_calls::{Answer, Job, JobPlace, Request};
use wf_image::{Image, bytes_of_pixel};
use wf_kernel::picture;
use wf_machine::Machine;
use wf_pixel::Size;
use wf_words::NoMemory;

/// A place for one frame after another. Clauses see the Job that stands here with its picture: it is painted where that is asked for
/// first, on whichever thread, and no machine is needed for it.
#[derive(Drop)]
pub struct Frame {
    place: JobPlace,
    painted: bool,
}

impl Model for Frame {
    ghost use Rattle.std.specs.Prelude.{Option, option_map};
    ghost use Rattle.wf_calls.specs.declared.call.Job.{Job};
    ghost use Rattle.wf_calls.specs.Places.{job_in};
    ghost use Rattle.wf_model.specs.Picture.{painted_job};
    ghost use Rattle.wf_host.specs.Painted.{IsKept};

    ghost Value = { Option Job };

    ghost view = { λ f. option_map painted_job (job_in f.place) };

    ghost invariant = { λ f. IsKept f.painted (job_in f.place) };
}

impl Frame {
    /// Makes a place without a frame.
    pub fn new(alloc: Global) -> Result<Frame, NoMemory>
        ensures { IfOk result (λ frame. frame ≡ None) }
    {
        Ok(Frame {
            place: JobPlace::new(alloc)?,
            painted: true,
        })
    }

    /// Tells whether a frame stands here.
    pub fn is_held(&self) -> bool
        ensures { result ≡ is_some self.now }
    {
        self.place.is_held()
    }

    /// Returns the size of the picture, or `None` where no frame stands here.
    pub fn size(&self) -> Option<Size>
        ensures { result ≡ option_map (λ job. job.image.size) self.now }
    {
        match self.place.job() {
            Some(job) => Some(job.scene.size),
            None => None,
        }
    }

    /// Paints the picture of the frame that stands here, where that was not done yet.
    pub fn paint(&mut self)
        ensures { self.new ≡ self.old }
    {
        paint_unless(self.painted, &mut self.place);
        self.painted = true;
    }

    /// Copies the rows of the picture into `out`, each `stride` bytes after the one before, in an `order` of the bytes of a pixel, and
    /// tells whether it did: not where no frame stands here, nor where `out` has no room for them or a row reaches into the next. Bytes
    /// between rows stay.
    pub fn read(&mut self, out: &mut [u8], stride: usize, order: Order) -> bool
        ensures frame { self.new ≡ self.old }
        ensures copies { Reads self.old stride order out.old out.new result }
    {
        paint_unless(self.painted, &mut self.place);
        self.painted = true;
        read_place(&self.place, out, stride, order)
    }

    /// Begins a frame of `machine` here, by the call of `request` for `client`.
    pub(crate) fn begin(&mut self, machine: &mut Machine, client: u8, request: &Request) -> Answer
        requires begins { IsTrue (is_begin (call_of request.now)) }
        requires none { self.old ≡ None }
        ensures { IsBegun client (call_of request.now) machine.old machine.new self.new result }
    {
        let answer = machine.begin(client, request, &mut self.place);
        if answer.code.is_ok() {
            self.painted = false;
        } else {
            self.place.clear();
            self.painted = true;
        }
        answer
    }

    /// Ends the frame that stands here, of `machine`, for `client`. One that is refused stays.
    pub(crate) fn end(&mut self, machine: &mut Machine, client: u8) -> Answer
        requires { IsSome self.old }
        ensures { IfSome self.old (λ job. IsEnded client job machine.old machine.new self.new result) }
    {
        paint_unless(self.painted, &mut self.place);
        self.painted = true;
        machine.end(client, &mut self.place)
    }
}

/// Paints the picture of a frame that began.
fn paint(job: &mut Job)
    requires { IsPaintable job.old }
    ensures { job.new ≡ painted_job job.old }
{
    picture(&job.scene, &job.contents, &mut job.image);
}

/// Paints the picture of the frame that stands in a place, if one does.
pub fn paint_held(place: &mut JobPlace)
    requires { IfSome (job_in place.old) IsPaintable }
    ensures { job_in place.new ≡ option_map painted_job (job_in place.old) }
{
    if place.is_held() {
        paint(place.job_mut());
    }
}

/// Paints the picture of the frame that stands in a place, if one does, unless that was done.
fn paint_unless(painted: bool, place: &mut JobPlace)
    requires { IsKept painted (job_in place.old) }
    ensures { job_in place.new ≡ option_map painted_job (job_in place.old) }
{
    if !painted {
        paint_held(place);
    }
}

/// Copies the rows of the picture of the frame that stands in a place into `out`, and tells whether it did.
fn read_place(place: &JobPlace, out: &mut [u8], stride: usize, order: Order) -> bool
    ensures { Reads (job_in place.now) stride order out.old out.new result }
{
    match place.job() {
        Some(job) => read_image(&job.image, out, stride, order),
        None => false,
    }
}

/// Copies the rows of an `image` into `out`, where they have room, and tells whether they have.
fn read_image(image: &Image, out: &mut [u8], stride: usize, order: Order) -> bool
    ensures { CopiesRows image.now stride order out.old out.new result }
{
    let size = image.size();
    let row = size.w as usize * bytes_of_pixel(image.format());
    let count = size.h as usize;
    if !stands(out.len(), stride, row, count) {
        return false;
    }
    copy_rows(out, stride, image.bytes(), row, row, count, order);
    true
}
