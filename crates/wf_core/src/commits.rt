//! Commits: the cached scene of a context becomes the committed one, or nothing changes.

ghost use Rattle.std.specs.Prelude.{◌≡◌, ◌+◌, ◌*◌, ◌≤◌, false, OnErr, IfOk, IfErr, IsTrue};
ghost use Rattle.std.specs.List.{list_all};
ghost use Rattle.wf_life.specs.Handles.{key_of};
ghost use Rattle.wf_stream.specs.Streams.{is_stream};
ghost use Rattle.wf_scene.specs.Consistent.{consistent};
ghost use Rattle.wf_scene.specs.Layers.{is_placed_layer};
ghost use Rattle.wf_stream.specs.Names.{HasRoom, NamesFit};
ghost use Rattle.wf_model.specs.Names.{core_names};
ghost use Rattle.wf_model.specs.Core.{commit, fault_as_refusal};
ghost use Rattle.wf_objects.specs.Does.{Does};
ghost use Rattle.wf_objects.specs.Sights.{seen_key, sight_in};
ghost use Rattle.wf_core.specs.Steps.{Steps};
ghost use Rattle.wf_objects.specs.Sides.{KeepsRest};
ghost use Rattle.wf_objects.specs.Fits.{Fits};

use crate::answers::reply;
use crate::composition::Core;
use crate::streams::seen_by_number;
use wf_calls::{Code, Refusal, Reply};
use wf_objects::Objects;
use wf_scene::{Cached, Fault, Look, Scene, Seen};
use wf_stream::{Kind, Store};

/// What a store tells of sources and masks: their keys are the numbers of their streams.
#[derive(Drop)]
struct Sights<'a> {
    store: &'a Store,
}

impl Look for Sights<'_> {
    ghost sight = { λ s. sight_in s.store.now };

    fn source(&self, handle: u32) -> Option<Seen> {
        seen_by_key(self.store, handle, Kind::Source)
    }

    fn mask(&self, handle: u32) -> Option<Seen> {
        seen_by_key(self.store, handle, Kind::Mask)
    }
}

/// What a live source or mask shows.
fn seen_by_key(store: &Store, handle: u32, kind: Kind) -> Option<Seen>
    requires { is_stream kind ≡ false }
    ensures { result ≡ seen_key store.now.streams (key_of handle kind store.now.others) }
{
    match store.find(handle, kind) {
        Ok(number) => seen_by_number(store, number),
        Err(_) => None,
    }
}

/// The scene that a commit takes, or its first fault, told as one number.
fn committed(cached: &Cached, store: &Store) -> Result<Scene, Refusal>
    ensures scene { result ≡ fault_as_refusal (consistent (sight_in store.now) cached.now) }
    ensures placed { IfOk result (λ scene. IsTrue (list_all is_placed_layer scene.layers.items)) }
{
    match cached.consistent(&Sights { store }) {
        Ok(scene) => Ok(scene),
        Err(Fault { place, rule }) => Err(Refusal {
            code: Code::Inconsistency,
            value: place * 16 + rule,
        }),
    }
}

pub(crate) fn try_commit(
    objects: &mut Objects,
    store: &mut Store,
    device: u32,
    context: u32,
) -> Result<u32, Refusal>
    requires fits { Fits objects.old store.old }
    requires names { NamesFit (core_names objects.old) store.old }
    requires room { HasRoom store.old }
    ensures { Does (λ _. commit device context) objects.old objects.new store.old store.new result }
{
    let place = objects.context_place(store, device, context)?;
    match committed(objects.cached(place), store) {
        Ok(scene) => objects.set_committed(store, place, scene),
        Err(refused) => return Err(refused),
    }
    Ok(0)
}

impl Core {
    /// Makes the cached scene of a context the committed one, as a whole, or refuses, which only the device's register takes.
    /// Inconsistency has the value place * 16 + rule: the place of the first bad element, from 1 at the bottom, and the first
    /// rule that it breaks. It cannot lack memory.
    pub fn commit(&mut self, store: &mut Store, device: u32, context: u32) -> Reply
        requires fits { Fits self.old store.old }
        requires names { NamesFit (core_names self.old) store.old }
        requires room { HasRoom store.old }
        ensures { Steps device (λ _. commit device context) KeepsRest self.old self.new store.old store.new result }
    {
        let done = try_commit(&mut self.objects, store, device, context);
        reply(&mut self.objects, store, device, done)
    }
}
