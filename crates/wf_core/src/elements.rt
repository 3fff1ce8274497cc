//! Elements: their attributes and their order.

ghost use Rattle.wf_model.specs.Core.{element_above, element_below, element_destroy, element_get, element_insert, element_new};
ghost use Rattle.wf_model.specs.Core.{element_remove, element_set};
ghost use Rattle.wf_model.specs.Sides.{KeepsAll};
ghost use Rattle.wf_core.specs.Steps.{Steps};
ghost use Rattle.wf_objects.specs.Does.{Does};
ghost use Rattle.wf_objects.specs.Fits.{Fits};
ghost use Rattle.wf_objects.specs.Sides.{KeepsRest};

use crate::answers::reply;
use crate::composition::Core;
use wf_calls::{Code, Refusal, Reply};
use wf_objects::{Objects, by_scene};
use wf_scene::ElementAttr;
use wf_stream::Store;

pub(crate) fn try_element_new(
    objects: &mut Objects,
    store: &mut Store,
    device: u32,
    context: u32,
) -> Result<u32, Refusal>
    requires { Fits objects.old store.old }
    ensures { Does (λ m. element_new device context m) objects.old objects.new store.old store.new result }
{
    let place = objects.context_place(store, device, context)?;
    objects.add_element(store, place)
}

pub(crate) fn try_element_destroy(
    objects: &mut Objects,
    store: &mut Store,
    device: u32,
    element: u32,
) -> Result<u32, Refusal>
    requires { Fits objects.old store.old }
    ensures { Does (λ _. element_destroy device element) objects.old objects.new store.old store.new result }
{
    let place = objects.element_place(store, device, element)?;
    objects.drop_element(store, place, element);
    Ok(0)
}

pub(crate) fn try_element_get(
    objects: &Objects,
    store: &Store,
    device: u32,
    element: u32,
    attr: ElementAttr,
    index: i64,
) -> Result<u32, Refusal>
    requires { Fits objects.now store.now }
    ensures { Does (λ _. element_get device element attr index) objects.now objects.now store.now store.now result }
{
    let place = objects.element_place(store, device, element)?;
    by_scene(objects.cached(place).get(element, attr, index))
}

pub(crate) fn try_element_set(
    objects: &mut Objects,
    store: &Store,
    device: u32,
    element: u32,
    attr: ElementAttr,
    value: [i64; 4],
) -> Result<u32, Refusal>
    requires { Fits objects.old store.now }
    ensures { Does (λ _. element_set device element attr value) objects.old objects.new store.now store.now result }
{
    let place = objects.element_place(store, device, element)?;
    objects.set_element(store, device, place, element, attr, value)
}

pub(crate) fn try_element_insert(
    objects: &mut Objects,
    store: &Store,
    device: u32,
    element: u32,
    below: u32,
) -> Result<u32, Refusal>
    requires { Fits objects.old store.now }
    ensures { Does (λ _. element_insert device element below) objects.old objects.new store.now store.now result }
{
    let place = objects.element_place(store, device, element)?;
    if !objects.is_element_or_0(store, device, below) {
        return Err(Refusal::of(Code::BadHandle));
    }
    objects.insert_element(store, place, element, below)
}

pub(crate) fn try_element_remove(
    objects: &mut Objects,
    store: &Store,
    device: u32,
    element: u32,
) -> Result<u32, Refusal>
    requires { Fits objects.old store.now }
    ensures { Does (λ _. element_remove device element) objects.old objects.new store.now store.now result }
{
    let place = objects.element_place(store, device, element)?;
    objects.remove_element(store, place, element)
}

pub(crate) fn try_element_above(
    objects: &Objects,
    store: &Store,
    device: u32,
    element: u32,
) -> Result<u32, Refusal>
    requires { Fits objects.now store.now }
    ensures { Does (λ _. element_above device element) objects.now objects.now store.now store.now result }
{
    let place = objects.element_place(store, device, element)?;
    by_scene(objects.cached(place).above(element))
}

pub(crate) fn try_element_below(
    objects: &Objects,
    store: &Store,
    device: u32,
    element: u32,
) -> Result<u32, Refusal>
    requires { Fits objects.now store.now }
    ensures { Does (λ _. element_below device element) objects.now objects.now store.now store.now result }
{
    let place = objects.element_place(store, device, element)?;
    by_scene(objects.cached(place).below(element))
}

impl Core {
    /// Makes an element of a context, whose handle it answers. Limit is a 65th element of the context, or that all handles
    /// were given.
    pub fn element_new(&mut self, store: &mut Store, device: u32, context: u32) -> Reply
        requires { Fits self.old store.old }
        ensures { Steps device (λ m. element_new device context m) KeepsRest self.old self.new store.old store.new result }
    {
        let done = try_element_new(&mut self.objects, store, device, context);
        reply(&mut self.objects, store, device, done)
    }

    /// Destroys an element, which leaves the order too. BadHandle is no element of the device.
    pub fn element_destroy(&mut self, store: &mut Store, device: u32, element: u32) -> Reply
        requires { Fits self.old store.old }
        ensures { Steps device (λ _. element_destroy device element) KeepsRest self.old self.new store.old store.new result }
    {
        let done = try_element_destroy(&mut self.objects, store, device, element);
        reply(&mut self.objects, store, device, done)
    }

    /// Sets an attribute of an element. BadHandle is a source or a mask that is neither 0 nor one of the device;
    /// IllegalArgument one of another context, or a number outside the attribute's range.
    pub fn element_set(
        &mut self,
        store: &mut Store,
        device: u32,
        element: u32,
        attr: ElementAttr,
        value: [i64; 4],
    ) -> Reply
        requires { Fits self.old store.old }
        ensures { Steps device (λ _. element_set device element attr value) KeepsAll self.old self.new store.old store.new result }
    {
        let done = try_element_set(&mut self.objects, store, device, element, attr, value);
        reply(&mut self.objects, store, device, done)
    }

    /// Answers one number of an attribute of an element, by its index from 0. A negative one is answered in two's complement.
    pub fn element_get(
        &mut self,
        store: &mut Store,
        device: u32,
        element: u32,
        attr: ElementAttr,
        index: i64,
    ) -> Reply
        requires { Fits self.old store.old }
        ensures { Steps device (λ _. element_get device element attr index) KeepsAll self.old self.new store.old store.new result }
    {
        let done = try_element_get(&self.objects, store, device, element, attr, index);
        reply(&mut self.objects, store, device, done)
    }

    /// Puts or moves an element directly above another, or to the bottom where that is 0. BadHandle is no element of the
    /// device; IllegalArgument one that is not inserted in the same context; Limit a 33rd inserted element.
    pub fn element_insert(
        &mut self,
        store: &mut Store,
        device: u32,
        element: u32,
        below: u32,
    ) -> Reply
        requires { Fits self.old store.old }
        ensures { Steps device (λ _. element_insert device element below) KeepsAll self.old self.new store.old store.new result }
    {
        let done = try_element_insert(&mut self.objects, store, device, element, below);
        reply(&mut self.objects, store, device, done)
    }

    /// Takes an inserted element out of the order. It lives on.
    pub fn element_remove(&mut self, store: &mut Store, device: u32, element: u32) -> Reply
        requires { Fits self.old store.old }
        ensures { Steps device (λ _. element_remove device element) KeepsAll self.old self.new store.old store.new result }
    {
        let done = try_element_remove(&mut self.objects, store, device, element);
        reply(&mut self.objects, store, device, done)
    }

    /// Answers the element directly above an inserted one, or 0.
    pub fn element_above(&mut self, store: &mut Store, device: u32, element: u32) -> Reply
        requires { Fits self.old store.old }
        ensures { Steps device (λ _. element_above device element) KeepsAll self.old self.new store.old store.new result }
    {
        let done = try_element_above(&self.objects, store, device, element);
        reply(&mut self.objects, store, device, done)
    }

    /// Answers the element directly below an inserted one, or 0.
    pub fn element_below(&mut self, store: &mut Store, device: u32, element: u32) -> Reply
        requires { Fits self.old store.old }
        ensures { Steps device (λ _. element_below device element) KeepsAll self.old self.new store.old store.new result }
    {
        let done = try_element_below(&self.objects, store, device, element);
        reply(&mut self.objects, store, device, done)
    }
}
