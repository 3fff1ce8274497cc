//! Contexts that are destroyed with all that is theirs, one object after another.

ghost use Rattle.std.specs.Prelude.{◌≡◌, ◌<◌, ◌==◌, [], Bool, not, filter, is_some, length, IsTrue, IsFalse};
ghost use Rattle.std.specs.List.{list_any};
ghost use Rattle.std.specs.Vec.{vec_capacity};
ghost use Rattle.wf_stream.specs.Names.{NamesFit, Recounts};
ghost use Rattle.wf_model.specs.Names.{core_names};
ghost use Rattle.wf_life.specs.declared.Kind.TheVariants as kind;
ghost use Rattle.wf_life.specs.Handles.{key_of};
ghost use Rattle.wf_model.specs.Core.{without_context};
ghost use Rattle.wf_objects.specs.Fits.{Fits, elements_of};
ghost use Rattle.wf_objects.specs.Links.{links};
ghost use Rattle.wf_objects.specs.Losses.{Loses, but_context, but_contexts_of, but_links};
ghost use Rattle.wf_objects.specs.Owners.{StandsAt};

use crate::dropping::drop_handle;
use crate::finding::key_of;
use crate::naming::end_context;
use crate::objects::Objects;
use crate::rows::Context;
use wf_stream::{Kind, Store};

/// The live handle of a source or of a mask is that of a mask.
fn is_mask(store: &Store, link: u32) -> bool
    ensures { result ≡ is_some (key_of link kind.Mask store.now.others) }
{
    key_of(store, link, Kind::Mask).is_some()
}

/// Leaves out the context of a handle.
fn leave_out_context(contexts: &mut Vec<Context>, handle: u32)
    ensures left { contexts.new.items ≡ filter (λ c. not (c.handle == handle)) contexts.old.items }
    ensures capacity { vec_capacity contexts.new ≡ vec_capacity contexts.old }
{
    contexts.retain(|context| context.handle != handle);
}

impl Objects {
    /// Takes out all sources and masks of a context, and their handles.
    fn drop_links(&mut self, store: &mut Store, context: u32)
        requires fits { Fits self.old store.old }
        requires names { NamesFit (core_names self.old) store.old }
        ensures dropped { self.new ≡ but_links context self.old }
        ensures loses { Loses store.old store.new }
        ensures names { Recounts (core_names self.old) (core_names self.new) store.old store.new }
        ensures fits { Fits self.new store.new }
    {
        while let Some(link) = self.linked.first(context) {
            let mask = is_mask(store, link);
            self.drop_link(store, mask, link);
        }
    }

    /// Takes out all elements of the context at a place, and their handles.
    fn drop_elements(&mut self, store: &mut Store, place: usize, context: u32)
        requires fits { Fits self.old store.old }
        requires names { NamesFit (core_names self.old) store.old }
        requires within { place < length self.old.contexts }
        requires here { StandsAt context place self.old }
        ensures rest { but_context context self.new ≡ but_context context self.old }
        ensures live { IsTrue (list_any (λ c. c.handle == context) self.new.contexts) }
        ensures bare { elements_of context store.new.others ≡ [] }
        ensures loses { Loses store.old store.new }
        ensures names { Recounts (core_names self.old) (core_names self.new) store.old store.new }
        ensures fits { Fits self.new store.new }
    {
        while let Some(element) = self.contexts[place].cached.first() {
            self.drop_element(store, place, element);
        }
    }

    /// Takes out a context that has no sources, masks or elements, and its handle.
    fn drop_bare_context(&mut self, store: &mut Store, context: u32)
        requires fits { Fits self.old store.old }
        requires names { NamesFit (core_names self.old) store.old }
        requires live { IsTrue (list_any (λ c. c.handle == context) self.old.contexts) }
        requires unlinked { (mask : Bool) → IsFalse (list_any (λ s. s.context == context) (links mask self.old)) }
        requires bare { elements_of context store.old.others ≡ [] }
        ensures dropped { self.new ≡ but_context context self.old }
        ensures loses { Loses store.old store.new }
        ensures names { Recounts (core_names self.old) (core_names self.new) store.old store.new }
        ensures fits { Fits self.new store.new }
    {
        let place = self.live_place(context);
        drop_handle(store, context);
        end_context(store, &self.contexts[place]);
        self.members.remove(context);
        self.linked.close(context);
        leave_out_context(&mut self.contexts, context);
    }

    /// Takes out the context at a place with all that is its, and their handles.
    pub fn drop_context(&mut self, store: &mut Store, place: usize, context: u32)
        requires fits { Fits self.old store.old }
        requires names { NamesFit (core_names self.old) store.old }
        requires within { place < length self.old.contexts }
        requires here { StandsAt context place self.old }
        ensures dropped { self.new ≡ without_context context self.old }
        ensures loses { Loses store.old store.new }
        ensures names { Recounts (core_names self.old) (core_names self.new) store.old store.new }
        ensures fits { Fits self.new store.new }
    {
        self.drop_links(store, context);
        self.drop_elements(store, place, context);
        self.drop_bare_context(store, context);
    }

    /// Takes out all contexts of a device with all that is theirs, and their handles.
    pub(crate) fn drop_contexts(&mut self, store: &mut Store, device: u32)
        requires fits { Fits self.old store.old }
        requires names { NamesFit (core_names self.old) store.old }
        ensures dropped { self.new ≡ but_contexts_of device self.old }
        ensures loses { Loses store.old store.new }
        ensures names { Recounts (core_names self.old) (core_names self.new) store.old store.new }
        ensures fits { Fits self.new store.new }
    {
        while let Some(context) = self.members.first(device) {
            let place = self.live_place(context);
            self.drop_context(store, place, context);
        }
    }
}
