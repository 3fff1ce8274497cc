//! Sources and masks.

ghost use Rattle.std.specs.Prelude.{◌≡◌, ◌==◌, IfOk, IsSomeAnd, IsTrue, OnOk};
ghost use Rattle.std.specs.List.{list_any};
ghost use Rattle.wf_pixel.specs.Choice.{is_a8};
ghost use Rattle.wf_stream.specs.Streams.{buffers_at};
ghost use Rattle.wf_stream.specs.Names.{HasRoom, NamesFit};
ghost use Rattle.wf_model.specs.Names.{core_names};
ghost use Rattle.wf_model.specs.Core.{mask_destroy, mask_new, source_destroy, source_new};
ghost use Rattle.wf_core.specs.Links.{is_unfit, link_destroy, link_new};
ghost use Rattle.wf_core.specs.Steps.{Asks, Steps};
ghost use Rattle.wf_objects.specs.Does.{Does, link_made};
ghost use Rattle.wf_objects.specs.Fits.{Fits};
ghost use Rattle.wf_objects.specs.Sides.{KeepsRest, core_side_of};

use crate::answers::reply;
use crate::composition::Core;
use crate::streams::seen_by_handle;
use wf_calls::{Code, Refusal, Reply};
use wf_objects::Objects;
use wf_pixel::Format;
use wf_stream::Store;

/// A format is not for a source, or not for a mask.
fn is_unfit(mask: bool, format: Format) -> bool
    ensures { result ≡ is_unfit mask format }
{
    if mask {
        !format.is_a8()
    } else {
        format.is_a8()
    }
}

/// The number of the stream that a new source or mask shows, or the refusal: BadDevice, BadHandle or Unsupported.
pub(crate) fn linked_stream(
    objects: &Objects,
    store: &Store,
    mask: bool,
    device: u32,
    context: u32,
    stream: u32,
) -> Result<u32, Refusal>
    requires { Fits objects.now store.now }
    ensures asks { Asks (link_new mask device context stream) (link_made mask context) (core_side_of objects.now store.now) result }
    ensures live { OnOk result (IsTrue (list_any (λ c. c.handle == context) objects.now.contexts)) }
    ensures kept { IfOk result (λ n. IsSomeAnd (buffers_at n store.now.streams) (λ b. is_a8 b.format ≡ mask)) }
{
    objects.context_place(store, device, context)?;
    let Some(seen) = seen_by_handle(store, stream) else {
        return Err(Refusal::of(Code::BadHandle));
    };
    if is_unfit(mask, seen.format) {
        return Err(Refusal::of(Code::Unsupported));
    }
    Ok(seen.stream)
}

pub(crate) fn try_link_new(
    objects: &mut Objects,
    store: &mut Store,
    mask: bool,
    device: u32,
    context: u32,
    stream: u32,
) -> Result<u32, Refusal>
    requires fits { Fits objects.old store.old }
    requires names { NamesFit (core_names objects.old) store.old }
    requires room { HasRoom store.old }
    ensures { Does (link_new mask device context stream) objects.old objects.new store.old store.new result }
{
    match linked_stream(objects, store, mask, device, context, stream) {
        Ok(number) => objects.add_link(store, mask, context, number),
        Err(refusal) => Err(refusal),
    }
}

pub(crate) fn try_link_destroy(
    objects: &mut Objects,
    store: &mut Store,
    mask: bool,
    device: u32,
    link: u32,
) -> Result<u32, Refusal>
    requires fits { Fits objects.old store.old }
    requires names { NamesFit (core_names objects.old) store.old }
    ensures { Does (λ _. link_destroy mask device link) objects.old objects.new store.old store.new result }
{
    objects.check_link_owned(store, mask, device, link)?;
    objects.drop_link(store, mask, link);
    Ok(0)
}

impl Core {
    /// Makes a source of a context, whose handle it answers. BadHandle is no context of the device or no live stream;
    /// Unsupported a stream for masks; Limit a 257th source or mask, or that all handles were given.
    pub fn source_new(&mut self, store: &mut Store, device: u32, context: u32, stream: u32) -> Reply
        requires fits { Fits self.old store.old }
        requires names { NamesFit (core_names self.old) store.old }
        requires room { HasRoom store.old }
        ensures { Steps device (λ m. source_new device context stream m) KeepsRest self.old self.new store.old store.new result }
    {
        let done = try_link_new(&mut self.objects, store, false, device, context, stream);
        reply(&mut self.objects, store, device, done)
    }

    /// Makes a mask of a context, whose handle it answers. It is refused as a source is, but that Unsupported is a stream
    /// that is not for masks.
    pub fn mask_new(&mut self, store: &mut Store, device: u32, context: u32, stream: u32) -> Reply
        requires fits { Fits self.old store.old }
        requires names { NamesFit (core_names self.old) store.old }
        requires room { HasRoom store.old }
        ensures { Steps device (λ m. mask_new device context stream m) KeepsRest self.old self.new store.old store.new result }
    {
        let done = try_link_new(&mut self.objects, store, true, device, context, stream);
        reply(&mut self.objects, store, device, done)
    }

    /// Destroys a source. BadHandle is no source of the device. Its stream is dropped where that was its last name; a
    /// committed scene that shows it is another.
    pub fn source_destroy(&mut self, store: &mut Store, device: u32, source: u32) -> Reply
        requires fits { Fits self.old store.old }
        requires names { NamesFit (core_names self.old) store.old }
        ensures { Steps device (λ _. source_destroy device source) KeepsRest self.old self.new store.old store.new result }
    {
        let done = try_link_destroy(&mut self.objects, store, false, device, source);
        reply(&mut self.objects, store, device, done)
    }

    /// Destroys a mask. BadHandle is no mask of the device. Its stream is dropped where that was its last name; a committed
    /// scene that shows through it is another.
    pub fn mask_destroy(&mut self, store: &mut Store, device: u32, mask: u32) -> Reply
        requires fits { Fits self.old store.old }
        requires names { NamesFit (core_names self.old) store.old }
        ensures { Steps device (λ _. mask_destroy device mask) KeepsRest self.old self.new store.old store.new result }
    {
        let done = try_link_destroy(&mut self.objects, store, true, device, mask);
        reply(&mut self.objects, store, device, done)
    }
}
