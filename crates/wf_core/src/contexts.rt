//! Contexts and their attributes.

ghost use Rattle.std.specs.Prelude.{◌≡◌, ◌==◌, false, pos, Ok, IfOk, IfSome, IsSome, IsTrue, OnOk};
ghost use Rattle.wf_words.specs.Whole.{count_of};
ghost use Rattle.wf_pixel.specs.Choice.{is_between};
ghost use Rattle.wf_stream.specs.Names.{HasRoom, NamesFit};
ghost use Rattle.wf_model.specs.Names.{core_names};
ghost use Rattle.wf_model.specs.Core.{context_destroy, context_get, context_set, is_drawable, screen_context, stream_context};
ghost use Rattle.wf_core.specs.Screens.{IsTarget, screen_seen};
ghost use Rattle.wf_model.specs.Sides.{KeepsAll};
ghost use Rattle.wf_core.specs.Steps.{Asks, Steps};
ghost use Rattle.wf_objects.specs.Does.{Does, context_made};
ghost use Rattle.wf_objects.specs.Fits.{Fits};
ghost use Rattle.wf_objects.specs.Owners.{live_device};
ghost use Rattle.wf_model.specs.Fitting.{IsOfPixels};
ghost use Rattle.wf_objects.specs.Sides.{KeepsRest, core_side_of};

use crate::answers::reply;
use crate::composition::Core;
use crate::streams::{seen_by_handle, seen_by_number};
use wf_calls::{Code, Refusal, Reply};
use wf_objects::{Objects, by_scene};
use wf_pixel::Format;
use wf_scene::{ContextAttr, Seen};
use wf_stream::Store;

/// The number of a declared port.
fn port_number(port: i64) -> u32
    requires { IsTrue (is_between (pos 1) (pos 4) port) }
    ensures number { result ≡ count_of port }
    ensures some { (result == 0) ≡ false }
{
    port as u32
}

/// The stream that a screen's context draws into, or the refusal.
fn screen_stream(store: &Store, screen: Option<u32>) -> Result<Seen, Refusal>
    ensures { result ≡ screen_seen screen store.now.streams }
{
    let Some(number) = screen else {
        return Err(Refusal::of(Code::IllegalArgument));
    };
    match seen_by_number(store, number) {
        Some(seen) => Ok(seen),
        None => Err(Refusal::of(Code::IllegalArgument)),
    }
}

/// The number of a port and its screen's stream, of which a new context is to be; or the refusal: BadDevice, IllegalArgument
/// or InUse.
pub(crate) fn screen_target(
    objects: &Objects,
    store: &Store,
    device: u32,
    port: i64,
    screen: Option<u32>,
) -> Result<(u32, Seen), Refusal>
    requires fits { Fits objects.now store.now }
    requires declared { IsSome screen → IsTrue (is_between (pos 1) (pos 4) port) }
    requires pixels { IfSome screen (IsOfPixels store.now.streams) }
    ensures asks { Asks (λ m. screen_context device port screen m) (λ x. context_made device x.0 x.1)
        (core_side_of objects.now store.now) result }
    ensures live { OnOk result (live_device device (core_side_of objects.now store.now) ≡ Ok tt) }
    ensures kept { IfOk result (λ x. IsTarget x.1 store.now.streams) }
{
    objects.check_device(store, device)?;
    let target = screen_stream(store, screen)?;
    let port = port_number(port);
    if objects.has_port(port) {
        return Err(Refusal::of(Code::InUse));
    }
    Ok((port, target))
}

pub(crate) fn try_screen_context(
    objects: &mut Objects,
    store: &mut Store,
    device: u32,
    port: i64,
    screen: Option<u32>,
) -> Result<u32, Refusal>
    requires fits { Fits objects.old store.old }
    requires names { NamesFit (core_names objects.old) store.old }
    requires room { HasRoom store.old }
    requires declared { IsSome screen → IsTrue (is_between (pos 1) (pos 4) port) }
    requires pixels { IfSome screen (IsOfPixels store.old.streams) }
    ensures { Does (λ m. screen_context device port screen m) objects.old objects.new store.old store.new result }
{
    match screen_target(objects, store, device, port, screen) {
        Ok((port, target)) => objects.add_context(store, device, port, target),
        Err(refusal) => Err(refusal),
    }
}

/// A context may draw pixels of a format: premultiplied ones, or ones without an alpha of their own.
fn is_drawable(format: Format) -> bool
    ensures { result ≡ is_drawable format }
{
    matches!(format, Format::Rgba8Pre | Format::Rgbx8)
}

/// The stream that a new off-screen context is to draw into, or the refusal: BadDevice, BadHandle, Unsupported or InUse.
pub(crate) fn stream_target(
    objects: &Objects,
    store: &Store,
    device: u32,
    stream: u32,
) -> Result<Seen, Refusal>
    requires { Fits objects.now store.now }
    ensures asks { Asks (stream_context device stream) (context_made device 0) (core_side_of objects.now store.now) result }
    ensures live { OnOk result (live_device device (core_side_of objects.now store.now) ≡ Ok tt) }
    ensures kept { IfOk result (λ seen. IsTarget seen store.now.streams) }
{
    objects.check_device(store, device)?;
    let Some(target) = seen_by_handle(store, stream) else {
        return Err(Refusal::of(Code::BadHandle));
    };
    if !is_drawable(target.format) {
        return Err(Refusal::of(Code::Unsupported));
    }
    if objects.has_target(target.stream) {
        return Err(Refusal::of(Code::InUse));
    }
    Ok(target)
}

pub(crate) fn try_stream_context(
    objects: &mut Objects,
    store: &mut Store,
    device: u32,
    stream: u32,
) -> Result<u32, Refusal>
    requires fits { Fits objects.old store.old }
    requires names { NamesFit (core_names objects.old) store.old }
    requires room { HasRoom store.old }
    ensures { Does (stream_context device stream) objects.old objects.new store.old store.new result }
{
    match stream_target(objects, store, device, stream) {
        Ok(target) => objects.add_context(store, device, 0, target),
        Err(refusal) => Err(refusal),
    }
}

pub(crate) fn try_context_destroy(
    objects: &mut Objects,
    store: &mut Store,
    device: u32,
    context: u32,
) -> Result<u32, Refusal>
    requires fits { Fits objects.old store.old }
    requires names { NamesFit (core_names objects.old) store.old }
    ensures { Does (λ _. context_destroy device context) objects.old objects.new store.old store.new result }
{
    let place = objects.context_place(store, device, context)?;
    objects.drop_context(store, place, context);
    Ok(0)
}

pub(crate) fn try_context_set(
    objects: &mut Objects,
    store: &Store,
    device: u32,
    context: u32,
    attr: ContextAttr,
    value: [i64; 4],
) -> Result<u32, Refusal>
    requires { Fits objects.old store.now }
    ensures { Does (λ _. context_set device context attr value) objects.old objects.new store.now store.now result }
{
    let place = objects.context_place(store, device, context)?;
    objects.set_context(store, place, attr, value)
}

pub(crate) fn try_context_get(
    objects: &Objects,
    store: &Store,
    device: u32,
    context: u32,
    attr: ContextAttr,
    index: i64,
) -> Result<u32, Refusal>
    requires { Fits objects.now store.now }
    ensures { Does (λ _. context_get device context attr index) objects.now objects.now store.now store.now result }
{
    let place = objects.context_place(store, device, context)?;
    by_scene(objects.cached(place).get_context(attr, index))
}

impl Core {
    /// Makes the context of a port's screen, whose handle it answers. `screen` is the number of the screen's stream, which is
    /// one of pixels, or None where the port was not declared. IllegalArgument is a port that was not declared; InUse a port
    /// that has a context; Limit a 17th context, or that all handles were given.
    pub fn screen_context(
        &mut self,
        store: &mut Store,
        device: u32,
        port: i64,
        screen: Option<u32>,
    ) -> Reply
        requires fits { Fits self.old store.old }
        requires names { NamesFit (core_names self.old) store.old }
        requires room { HasRoom store.old }
        requires declared { IsSome screen → IsTrue (is_between (pos 1) (pos 4) port) }
        requires pixels { IfSome screen (IsOfPixels store.old.streams) }
        ensures { Steps device (λ m. screen_context device port screen m) KeepsRest self.old self.new store.old store.new result }
    {
        let done = try_screen_context(&mut self.objects, store, device, port, screen);
        reply(&mut self.objects, store, device, done)
    }

    /// Makes an off-screen context, which draws into the stream of a live handle, and answers the context's handle.
    /// BadHandle is no live stream; Unsupported a stream that is neither premultiplied nor without alpha; InUse a stream
    /// into which a context draws; Limit a 17th context, or that all handles were given.
    pub fn stream_context(&mut self, store: &mut Store, device: u32, stream: u32) -> Reply
        requires fits { Fits self.old store.old }
        requires names { NamesFit (core_names self.old) store.old }
        requires room { HasRoom store.old }
        ensures { Steps device (stream_context device stream) KeepsRest self.old self.new store.old store.new result }
    {
        let done = try_stream_context(&mut self.objects, store, device, stream);
        reply(&mut self.objects, store, device, done)
    }

    /// Destroys a context with its elements, sources and masks. BadHandle is no context of the device. A stream that it named
    /// last is dropped.
    pub fn context_destroy(&mut self, store: &mut Store, device: u32, context: u32) -> Reply
        requires fits { Fits self.old store.old }
        requires names { NamesFit (core_names self.old) store.old }
        ensures { Steps device (λ _. context_destroy device context) KeepsRest self.old self.new store.old store.new result }
    {
        let done = try_context_destroy(&mut self.objects, store, device, context);
        reply(&mut self.objects, store, device, done)
    }

    /// Sets an attribute of a context: its rotation or its background. IllegalArgument is a number outside its range.
    pub fn context_set(
        &mut self,
        store: &mut Store,
        device: u32,
        context: u32,
        attr: ContextAttr,
        value: [i64; 4],
    ) -> Reply
        requires { Fits self.old store.old }
        ensures { Steps device (λ _. context_set device context attr value) KeepsAll self.old self.new store.old store.new result }
    {
        let done = try_context_set(&mut self.objects, store, device, context, attr, value);
        reply(&mut self.objects, store, device, done)
    }

    /// Answers one number of an attribute of a context, by its index from 0.
    pub fn context_get(
        &mut self,
        store: &mut Store,
        device: u32,
        context: u32,
        attr: ContextAttr,
        index: i64,
    ) -> Reply
        requires { Fits self.old store.old }
        ensures { Steps device (λ _. context_get device context attr index) KeepsAll self.old self.new store.old store.new result }
    {
        let done = try_context_get(&self.objects, store, device, context, attr, index);
        reply(&mut self.objects, store, device, done)
    }
}
