//! Objects that leave with their handles. A handle of an object that left is dead, and is never given again.

ghost use Rattle.std.specs.Prelude.{◌≡◌, ◌<◌, ◌==◌, length, slice_get, IfSome, IsSome, IsTrue, IsFalse, Ok, Some, not, filter};
ghost use Rattle.std.specs.List.{list_any};
ghost use Rattle.std.specs.Vec.{vec_capacity};
ghost use Rattle.wf_words.specs.Rising.{Rises};
ghost use Rattle.wf_life.specs.Handles.{is_live, key_of, without};
ghost use Rattle.wf_stream.specs.Names.{NamesFit, Recounts};
ghost use Rattle.wf_scene.specs.Cached.{forget};
ghost use Rattle.wf_model.specs.Composition.{change_context, with_cached};
ghost use Rattle.wf_model.specs.Names.{core_names};
ghost use Rattle.wf_model.specs.Core.{without_device, without_source};
ghost use Rattle.wf_objects.specs.Fits.{Fits};
ghost use Rattle.wf_objects.specs.Links.{link_kind, links, with_links};
ghost use Rattle.wf_objects.specs.Losses.{Loses};
ghost use Rattle.wf_objects.specs.Owners.{LivesAt, live_device};
ghost use Rattle.wf_objects.specs.Sides.{core_side_of};

use crate::finding::key_of;
use crate::making::link_kind;
use crate::objects::Objects;
use crate::rows::{Device, Link};
use wf_stream::{Store, end_name};

/// Ends the life of the handle of an object.
pub(crate) fn drop_handle(store: &mut Store, handle: u32)
    requires { IsTrue (is_live handle store.old.others) }
    ensures { store.new ≡ record store.old { others = without handle store.old.others } }
{
    store.kill(handle);
}

/// The number of the stream that a live source or mask names.
fn stream_of(store: &Store, mask: bool, link: u32) -> u32
    requires { IsSome (key_of link (link_kind mask) store.now.others) }
    ensures { key_of link (link_kind mask) store.now.others ≡ Some result }
{
    let Some(stream) = key_of(store, link, link_kind(mask)) else {
        unreachable!()
    };
    stream
}

/// Leaves out the source or the mask of a handle.
fn leave_out(links: &mut Vec<Link>, handle: u32)
    ensures left { links.new.items ≡ without_source handle links.old.items }
    ensures capacity { vec_capacity links.new ≡ vec_capacity links.old }
{
    links.retain(|link| link.handle != handle);
}

/// Leaves out the device of a handle.
fn leave_out_device(devices: &mut Vec<Device>, handle: u32)
    ensures left { devices.new.items ≡ filter (λ x. not (x.handle == handle)) devices.old.items }
    ensures capacity { vec_capacity devices.new ≡ vec_capacity devices.old }
{
    devices.retain(|device| device.handle != handle);
}

impl Objects {
    /// Leaves out the source, or the mask, of a handle, which is that of no link of the other kind.
    fn leave_out_link(&mut self, mask: bool, handle: u32)
        requires rises { Rises (λ s. s.handle) 0 (links mask self.old) }
        requires live { IsTrue (list_any (λ s. s.handle == handle) (links mask self.old)) }
        requires alone { IsFalse (list_any (λ s. s.handle == handle) (links (not mask) self.old)) }
        ensures { self.new ≡ with_links mask (without_source handle (links mask self.old)) self.old }
    {
        self.linked.remove(handle);
        if mask {
            leave_out(&mut self.masks, handle);
        } else {
            leave_out(&mut self.sources, handle);
        }
    }

    /// Takes out a source, or a mask, and its handle.
    pub fn drop_link(&mut self, store: &mut Store, mask: bool, link: u32)
        requires fits { Fits self.old store.old }
        requires names { NamesFit (core_names self.old) store.old }
        requires live { IsTrue (list_any (λ s. s.handle == link) (links mask self.old)) }
        ensures dropped { self.new ≡ with_links mask (without_source link (links mask self.old)) self.old }
        ensures loses { Loses store.old store.new }
        ensures names { Recounts (core_names self.old) (core_names self.new) store.old store.new }
        ensures fits { Fits self.new store.new }
    {
        let stream = stream_of(store, mask, link);
        drop_handle(store, link);
        end_name(store, stream);
        self.leave_out_link(mask, link);
    }

    /// Takes out an element of the context at a place, and its handle.
    pub fn drop_element(&mut self, store: &mut Store, place: usize, element: u32)
        requires fits { Fits self.old store.old }
        requires within { place < length self.old.contexts }
        requires lives { LivesAt element place self.old }
        ensures dropped { IfSome (slice_get self.old.contexts place)
            (λ c. self.new ≡ change_context c.handle (with_cached (forget element c.cached)) self.old) }
        ensures loses { Loses store.old store.new }
        ensures names { Recounts (core_names self.old) (core_names self.new) store.old store.new }
        ensures fits { Fits self.new store.new }
    {
        drop_handle(store, element);
        self.contexts[place].cached.forget(element);
    }

    /// Takes out a device that has no contexts, and its handle.
    fn drop_bare_device(&mut self, store: &mut Store, device: u32)
        requires fits { Fits self.old store.old }
        requires live { IsTrue (list_any (λ x. x.handle == device) self.old.devices) }
        requires bare { IsFalse (list_any (λ c. c.device == device) self.old.contexts) }
        ensures dropped { self.new ≡ record self.old { devices = filter (λ x. not (x.handle == device)) self.old.devices } }
        ensures loses { Loses store.old store.new }
        ensures names { Recounts (core_names self.old) (core_names self.new) store.old store.new }
        ensures fits { Fits self.new store.new }
    {
        drop_handle(store, device);
        self.members.close(device);
        leave_out_device(&mut self.devices, device);
    }

    /// Takes out a device with its contexts and all that is theirs, and their handles.
    pub fn drop_device(&mut self, store: &mut Store, device: u32)
        requires fits { Fits self.old store.old }
        requires names { NamesFit (core_names self.old) store.old }
        requires live { live_device device (core_side_of self.old store.old) ≡ Ok tt }
        ensures dropped { self.new ≡ without_device device self.old }
        ensures loses { Loses store.old store.new }
        ensures names { Recounts (core_names self.old) (core_names self.new) store.old store.new }
        ensures fits { Fits self.new store.new }
    {
        self.drop_contexts(store, device);
        self.drop_bare_device(store, device);
    }
}
