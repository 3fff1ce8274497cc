//! New objects, each under the handle that comes next.

ghost use Rattle.std.specs.Prelude.{◌≡◌, ◌≢◌, ◌+◌, ◌<◌, ◌==◌, ◌++◌, ◌∷◌, [], Bool, false, length, Ok};
ghost use Rattle.std.specs.Prelude.{IfOk, IsSomeAnd, IsTrue, IsFalse, OnOk, OnErr};
ghost use Rattle.std.specs.List.{list_any};
ghost use Rattle.wf_pixel.specs.Choice.{is_a8};
ghost use Rattle.wf_stream.specs.Streams.{buffers_at, is_stream, with_other};
ghost use Rattle.wf_stream.specs.Names.{HasRoom, NamesFit};
ghost use Rattle.wf_model.specs.Names.{core_names};
ghost use Rattle.wf_model.specs.Core.{blank_scene, device_new, sources_full};
ghost use Rattle.wf_objects.specs.Does.{Does, context_made, element_made, in_place, link_made};
ghost use Rattle.wf_objects.specs.Fits.{Fits};
ghost use Rattle.wf_objects.specs.Owners.{live_device};
ghost use Rattle.wf_objects.specs.Links.{link_kind, links, with_links};
ghost use Rattle.wf_objects.specs.Sides.{core_side_of};
ghost use Rattle.wf_model.specs.Outcome.{lacks_memory, refused_handle, without_value};

use crate::objects::Objects;
use crate::rows::{Context, Device, Link};
use arrayvec::ArrayVec;
use wf_calls::{Code, Refusal};
use wf_model::{MOST_CONTEXTS, MOST_DEVICES, MOST_SOURCES};
use wf_pixel::{Rgba, Rotation, Size};
use wf_scene::{Cached, MOST_ELEMENTS, Scene, Seen};
use wf_stream::{Kind, MakeStop, Store, begin_name};

/// The handle of a new object, under which the store keeps this key.
fn mint(store: &mut Store, kind: Kind, key: u32) -> Result<u32, Refusal>
    requires { is_stream kind ≡ false }
    ensures handle { IfOk result (λ handle. handle ≡ store.old.made + 1) }
    ensures made { OnOk result (store.new ≡ with_other kind key store.old) }
    ensures stopped { without_value result ≡ refused_handle store.old.made (lacks_memory result) }
    ensures refused { OnErr result (store.new ≡ store.old) }
{
    match store.mint(kind, key) {
        Ok(handle) => Ok(handle),
        Err(MakeStop::Limit) => Err(Refusal::of(Code::Limit)),
        Err(MakeStop::NoMemory) => Err(Refusal::of(Code::OutOfMemory)),
    }
}

/// The kind of a source, or of a mask.
pub(crate) fn link_kind(mask: bool) -> Kind
    ensures { result ≡ link_kind mask }
{
    if mask { Kind::Mask } else { Kind::Source }
}

/// Nothing but an opaque black background.
fn blank_scene(size: Size) -> Scene
    ensures { result ≡ blank_scene size }
{
    Scene {
        size,
        turn: Rotation::R0,
        background: Rgba::BLACK,
        layers: ArrayVec::new(),
    }
}

impl Objects {
    /// As many sources and masks live as may, those of the display included.
    pub(crate) fn sources_full(&self, store: &Store) -> bool
        ensures { result ≡ sources_full (core_side_of self.now store.now) }
    {
        let here = self.sources.len() + self.masks.len();
        let there = store.live(Kind::DisplaySource) as usize;
        here >= MOST_SOURCES || here + there >= MOST_SOURCES
    }

    /// One more source, or one more mask, of a live context. Its handle is no other's.
    fn push_link(&mut self, mask: bool, link: Link)
        requires few { length self.old.sources + length self.old.masks < MOST_SOURCES }
        requires live { IsTrue (list_any (λ c. c.handle == link.context) self.old.contexts) }
        requires named { link.handle ≢ 0 }
        requires fresh { (m : Bool) → IsFalse (list_any (λ s. s.handle == link.handle) (links m self.old)) }
        ensures { self.new ≡ with_links mask (links mask self.old ++ link ∷ []) self.old }
    {
        self.linked.add(link.context, link.handle);
        if mask {
            self.masks.push_reserved(link);
        } else {
            self.sources.push_reserved(link);
        }
    }

    /// Makes a device, whose handle it answers. Limit is a ninth device, or that all handles were given.
    pub fn add_device(&mut self, store: &mut Store) -> Result<u32, Refusal>
        requires { Fits self.old store.old }
        ensures { Does device_new self.old self.new store.old store.new result }
    {
        if self.devices.len() >= MOST_DEVICES {
            return Err(Refusal::of(Code::Limit));
        }
        let handle = mint(store, Kind::Device, 0)?;
        self.members.open(handle);
        self.devices.push_reserved(Device {
            handle,
            register: None,
        });
        Ok(handle)
    }

    /// Makes an inactive context of a device and of a port, or of none by 0, and answers its handle. Its target is kept and
    /// a stream of pixels. Limit is a 17th context, or that all handles were given.
    pub fn add_context(
        &mut self,
        store: &mut Store,
        device: u32,
        port: u32,
        target: Seen,
    ) -> Result<u32, Refusal>
        requires fits { Fits self.old store.old }
        requires names { NamesFit (core_names self.old) store.old }
        requires room { HasRoom store.old }
        requires live { live_device device (core_side_of self.old store.old) ≡ Ok tt }
        requires kept { IsSomeAnd (buffers_at target.stream store.old.streams) (λ b. (b.size ≡ target.size) × (is_a8 b.format ≡ false)) }
        ensures { Does (context_made device port target) self.old self.new store.old store.new result }
    {
        if self.contexts.len() >= MOST_CONTEXTS || store.full() {
            return Err(Refusal::of(Code::Limit));
        }
        let Ok(cached) = Cached::new(self.alloc, target.size, port != 0) else {
            return Err(Refusal::of(Code::OutOfMemory));
        };
        let handle = mint(store, Kind::Context, device)?;
        begin_name(store, target.stream);
        self.members.add(device, handle);
        self.linked.open(handle);
        self.contexts.push_reserved(Context {
            handle,
            device,
            port,
            target: target.stream,
            active: false,
            cached,
            committed: blank_scene(target.size),
        });
        Ok(handle)
    }

    /// Makes a source or a mask of a live context, whose stream is kept and one of pixels or of alphas, and answers its handle.
    /// Limit is a 257th source or mask, or that all handles were given.
    pub fn add_link(
        &mut self,
        store: &mut Store,
        mask: bool,
        context: u32,
        stream: u32,
    ) -> Result<u32, Refusal>
        requires fits { Fits self.old store.old }
        requires names { NamesFit (core_names self.old) store.old }
        requires room { HasRoom store.old }
        requires live { IsTrue (list_any (λ c. c.handle == context) self.old.contexts) }
        requires kept { IsSomeAnd (buffers_at stream store.old.streams) (λ b. is_a8 b.format ≡ mask) }
        ensures { Does (link_made mask context stream) self.old self.new store.old store.new result }
    {
        if self.sources_full(store) {
            return Err(Refusal::of(Code::Limit));
        }
        let handle = mint(store, link_kind(mask), stream)?;
        begin_name(store, stream);
        self.push_link(
            mask,
            Link {
                handle,
                context,
                stream,
            },
        );
        Ok(handle)
    }

    /// Makes an element of the context at a place, and answers its handle. Limit is a 65th element of the context, or that
    /// all handles were given.
    pub fn add_element(&mut self, store: &mut Store, place: usize) -> Result<u32, Refusal>
        requires fits { Fits self.old store.old }
        requires within { place < length self.old.contexts }
        ensures { Does (in_place place element_made) self.old self.new store.old store.new result }
    {
        if self.contexts[place].cached.count() >= MOST_ELEMENTS {
            return Err(Refusal::of(Code::Limit));
        }
        let handle = mint(store, Kind::Element, self.contexts[place].handle)?;
        self.contexts[place].cached.add(handle);
        Ok(handle)
    }
}
