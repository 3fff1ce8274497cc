//! Changes of the context at a place.

ghost use Rattle.std.specs.Prelude.{◌≡◌, ◌<◌, ◌+◌, length, slice_get, Ok, IfSome, IsTrue};
ghost use Rattle.wf_calls.specs.Replies.{refusal};
ghost use Rattle.wf_scene.specs.Cached as cached;
ghost use Rattle.wf_scene.specs.Elements.{may_take};
ghost use Rattle.wf_stream.specs.Names.{HasRoom, NamesFit};
ghost use Rattle.wf_model.specs.Names.{core_names};
ghost use Rattle.wf_model.specs.Core.{by_scene, refusal_code, with_active, with_committed};
ghost use Rattle.wf_objects.specs.Does.{Does, changed, edited_by, element_set, in_place, scene_set};
ghost use Rattle.wf_objects.specs.Fits.{ContextFits, Fits};
ghost use Rattle.wf_objects.specs.Owners.{LivesAt};

use crate::naming::{begin_layers, end_layers};
use crate::objects::Objects;
use wf_calls::{Code, Refusal};
use wf_scene::{ContextAttr, ElementAttr, Refused, Scene};
use wf_stream::Store;

/// The refusal of a call by its cached scene.
fn scene_refusal(refused: Refused) -> Refusal
    ensures { result ≡ refusal (refusal_code refused) }
{
    match refused {
        Refused::BadAttribute => Refusal::of(Code::BadAttribute),
        Refused::IllegalArgument => Refusal::of(Code::IllegalArgument),
        Refused::Limit => Refusal::of(Code::Limit),
    }
}

/// Returns the number that a cached scene answers, or its refusal.
pub fn by_scene(done: Result<u32, Refused>) -> Result<u32, Refusal>
    ensures { result ≡ by_scene done }
{
    match done {
        Ok(number) => Ok(number),
        Err(refused) => Err(scene_refusal(refused)),
    }
}

/// 0, where a cached scene was changed, or its refusal.
fn edited(done: Result<(), Refused>) -> Result<u32, Refusal>
    ensures { result ≡ edited_by done }
{
    match done {
        Ok(()) => Ok(0),
        Err(refused) => Err(scene_refusal(refused)),
    }
}

impl Objects {
    /// Makes the context at a place active or inactive.
    pub fn set_active(&mut self, store: &Store, place: usize, active: bool)
        requires fits { Fits self.old store.now }
        requires within { place < length self.old.contexts }
        ensures { Does (in_place place (changed (with_active active))) self.old self.new store.now store.now (Ok 0) }
    {
        self.contexts[place].active = active;
    }

    /// Makes a scene that fits the committed one of the context at a place. Its names begin before those of the scene that
    /// stood there end.
    pub fn set_committed(&mut self, store: &mut Store, place: usize, scene: Scene)
        requires fits { Fits self.old store.old }
        requires names { NamesFit (core_names self.old) store.old }
        requires room { HasRoom store.old }
        requires within { place < length self.old.contexts }
        requires scene_fits { IfSome (slice_get self.old.contexts place) (λ c. ContextFits store.old.streams (with_committed scene c)) }
        ensures { Does (in_place place (changed (with_committed scene))) self.old self.new store.old store.new (Ok 0) }
    {
        begin_layers(store, scene.layers.as_slice());
        end_layers(store, self.contexts[place].committed.layers.as_slice());
        self.contexts[place].committed = scene;
    }

    /// Sets an attribute of the context at a place, and answers 0. IllegalArgument is a number outside its range.
    pub fn set_context(
        &mut self,
        store: &Store,
        place: usize,
        attr: ContextAttr,
        value: [i64; 4],
    ) -> Result<u32, Refusal>
        requires fits { Fits self.old store.now }
        requires within { place < length self.old.contexts }
        ensures { Does (in_place place (scene_set (cached.set_context attr value))) self.old self.new store.now store.now result }
    {
        edited(self.contexts[place].cached.set_context(attr, value))
    }

    /// Sets an attribute of an element of the context at a place, and answers 0. BadHandle is a source or a mask that is
    /// neither 0 nor one of the device; IllegalArgument one of another context, or a number outside the attribute's range.
    pub fn set_element(
        &mut self,
        store: &Store,
        device: u32,
        place: usize,
        element: u32,
        attr: ElementAttr,
        value: [i64; 4],
    ) -> Result<u32, Refusal>
        requires fits { Fits self.old store.now }
        requires within { place < length self.old.contexts }
        requires lives { LivesAt element place self.old }
        ensures { Does (in_place place (element_set device element attr value)) self.old self.new store.now store.now result }
    {
        let owner = self.contexts[place].handle;
        self.check_link(store, device, owner, attr, value)?;
        edited(self.contexts[place].cached.set(element, attr, value))
    }

    /// Puts or moves an element of the context at a place directly above another, or to the bottom where that is 0, and
    /// answers 0. IllegalArgument is an element that is not inserted there; Limit a 33rd inserted element.
    pub fn insert_element(
        &mut self,
        store: &Store,
        place: usize,
        element: u32,
        below: u32,
    ) -> Result<u32, Refusal>
        requires fits { Fits self.old store.now }
        requires within { place < length self.old.contexts }
        requires lives { LivesAt element place self.old }
        ensures { Does (in_place place (scene_set (cached.insert element below))) self.old self.new store.now store.now result }
    {
        edited(self.contexts[place].cached.insert(element, below))
    }

    /// Takes an element of the context at a place out of the order, and answers 0. IllegalArgument is one that is not
    /// inserted.
    pub fn remove_element(
        &mut self,
        store: &Store,
        place: usize,
        element: u32,
    ) -> Result<u32, Refusal>
        requires fits { Fits self.old store.now }
        requires within { place < length self.old.contexts }
        requires lives { LivesAt element place self.old }
        ensures { Does (in_place place (scene_set (cached.remove element))) self.old self.new store.now store.now result }
    {
        edited(self.contexts[place].cached.remove(element))
    }
}
