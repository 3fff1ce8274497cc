//! The cached scene of a context.

ghost use Rattle.std.specs.Prelude.{◌≡◌, ◌<◌, ◌≤◌, IsTrue, IfOk, OnErr, false, length, option_map, slice_get};
ghost use Rattle.std.specs.List.{list_all};
ghost use Rattle.wf_words.specs.Refusals.{left_by};
ghost use Rattle.wf_scene.specs.Layers.{is_placed_layer};
ghost use Rattle.wf_scene.specs.Elements.{may_take};
ghost use Rattle.wf_scene.specs.Cached as cached;
ghost use Rattle.wf_scene.specs.Consistent as scene;
ghost use Rattle.wf_scene.specs.Cached.{IsOrderly};

use crate::attributes::{ContextAttr, ElementAttr, Refused};
use crate::consistency::layers_of;
use crate::look::{Fault, Look};
use crate::slots::Slots;
use crate::{MOST_ELEMENTS, Scene, values};
use std::alloc::Global;
use std::marker::Model;
use wf_pixel::{Rgba, Rotation, Size};
use wf_words::NoMemory;

/// A context's cached scene: its target's size and whether that is a screen, its turn and its background, its live
/// elements with their attributes, and which of them are inserted, from the bottom up. No call but `new` can lack memory.
#[derive(Drop)]
pub struct Cached {
    size: Size,
    on_screen: bool,
    turn: Rotation,
    background: Rgba,
    slots: Slots,
}

impl Model for Cached {
    ghost use Rattle.wf_scene.specs.Cached.{CachedScene};

    ghost Value = { CachedScene };

    ghost use Rattle.wf_scene.specs.Inside.{scene_inside, IsSound};

    ghost view = { scene_inside };

    ghost invariant = { IsSound };
}

impl Cached {
    /// Makes a scene without elements for a target of the size `target`, a screen's where `on_screen` is set, with the room for
    /// 64 elements.
    pub fn new(alloc: Global, target: Size, on_screen: bool) -> Result<Cached, NoMemory>
        ensures { IfOk result (λ made. made ≡ cached.empty target on_screen) }
    {
        let slots = Slots::new(alloc)?;
        Ok(Cached {
            size: target,
            on_screen,
            turn: Rotation::R0,
            background: Rgba::BLACK,
            slots,
        })
    }

    /// Returns how many elements live here.
    pub fn count(&self) -> u32
        ensures count { result ≡ length self.now.elements }
        ensures orderly { IsOrderly self.now }
    {
        self.slots.count()
    }

    /// Tells whether `element` lives here.
    pub fn has(&self, element: u32) -> bool
        ensures live { result ≡ cached.has_element element self.now }
        ensures orderly { IsOrderly self.now }
    {
        self.slots.has(element)
    }

    /// Returns the handle of the first element, in the order in which they were added.
    pub fn first(&self) -> Option<u32>
        ensures first { result ≡ option_map cached.handle_of (slice_get self.now.elements 0) }
        ensures orderly { IsOrderly self.now }
    {
        self.slots.first()
    }

    /// Adds `element`, a handle that is not 0, with the initial attributes.
    pub fn add(&mut self, element: u32)
        requires room { length self.old.elements < MOST_ELEMENTS }
        requires handle { 0 < element }
        requires fresh { cached.has_element element self.old ≡ false }
        ensures added { self.new ≡ cached.add element self.old }
        ensures orderly { IsOrderly self.new }
    {
        self.slots.add(element);
    }

    /// Ends the life of `element` here, which is not inserted then.
    pub fn forget(&mut self, element: u32)
        requires { IsTrue (cached.has_element element self.old) }
        ensures forgotten { self.new ≡ cached.forget element self.old }
        ensures orderly { IsOrderly self.new }
    {
        self.slots.forget(element);
    }

    /// Sets `attr` of the live `element` to `value`. A value that names a source or a mask is 0 or a handle, which is for the
    /// caller to test; every other number may be anything, and is refused outside the attribute's range.
    pub fn set(&mut self, element: u32, attr: ElementAttr, value: [i64; 4]) -> Result<(), Refused>
        requires live { IsTrue (cached.has_element element self.old) }
        requires number { IsTrue (may_take attr value) }
        ensures case { cached.set element attr value self.old ≡ left_by result self.new }
        ensures refused { OnErr result (self.new ≡ self.old) }
        ensures orderly { IsOrderly self.new }
    {
        let slot = self.slots.live_slot(element) as usize;
        let Some(changed) = self.slots.table[slot].with(attr, value) else {
            return Err(Refused::IllegalArgument);
        };
        self.slots.table[slot] = changed;
        Ok(())
    }

    /// Returns one number of `attr` of the live `element`, by its `index` from 0. A negative one is given in two's complement.
    pub fn get(&self, element: u32, attr: ElementAttr, index: i64) -> Result<u32, Refused>
        requires { IsTrue (cached.has_element element self.now) }
        ensures { result ≡ cached.get element attr index self.now }
    {
        match self.slots.find(element) {
            Some(e) => e.number(attr, index).ok_or(Refused::IllegalArgument),
            None => Err(Refused::IllegalArgument),
        }
    }

    /// Puts the live `element` directly above `below`, or to the bottom where that is 0. An element that is inserted already is
    /// moved, and above itself it stays where it is.
    pub fn insert(&mut self, element: u32, below: u32) -> Result<(), Refused>
        requires { IsTrue (cached.has_element element self.old) }
        ensures case { cached.insert element below self.old ≡ left_by result self.new }
        ensures refused { OnErr result (self.new ≡ self.old) }
        ensures orderly { IsOrderly self.new }
    {
        if !self.slots.is_base(below) {
            return Err(Refused::IllegalArgument);
        }
        if self.slots.has_no_room(element) {
            return Err(Refused::Limit);
        }
        self.slots.insert(element, below);
        Ok(())
    }

    /// Takes the inserted `element` out of the order. It stays a live element.
    pub fn remove(&mut self, element: u32) -> Result<(), Refused>
        requires { IsTrue (cached.has_element element self.old) }
        ensures case { cached.remove element self.old ≡ left_by result self.new }
        ensures refused { OnErr result (self.new ≡ self.old) }
        ensures orderly { IsOrderly self.new }
    {
        if !self.slots.is_inserted(element) {
            return Err(Refused::IllegalArgument);
        }
        self.slots.remove(element);
        Ok(())
    }

    /// Returns the element directly above `element`, which is inserted, or 0.
    pub fn above(&self, element: u32) -> Result<u32, Refused>
        requires { IsTrue (cached.has_element element self.now) }
        ensures { result ≡ cached.above element self.now }
    {
        self.slots.above(element).ok_or(Refused::IllegalArgument)
    }

    /// Returns the element directly below `element`, which is inserted, or 0.
    pub fn below(&self, element: u32) -> Result<u32, Refused>
        requires { IsTrue (cached.has_element element self.now) }
        ensures { result ≡ cached.below element self.now }
    {
        self.slots.below(element).ok_or(Refused::IllegalArgument)
    }

    /// Sets `attr` of the context to `value`: its rotation or its background.
    pub fn set_context(&mut self, attr: ContextAttr, value: [i64; 4]) -> Result<(), Refused>
        ensures case { cached.set_context attr value self.old ≡ left_by result self.new }
        ensures refused { OnErr result (self.new ≡ self.old) }
        ensures orderly { IsOrderly self.new }
    {
        match attr {
            ContextAttr::Rotation => {
                self.turn = values::turn_of(value[0]).ok_or(Refused::IllegalArgument)?;
                Ok(())
            }
            ContextAttr::Background => {
                self.background = values::colour_of(value).ok_or(Refused::IllegalArgument)?;
                Ok(())
            }
            _ => Err(Refused::BadAttribute),
        }
    }

    /// Returns one number of `attr` of the context, by its `index` from 0.
    pub fn get_context(&self, attr: ContextAttr, index: i64) -> Result<u32, Refused>
        ensures { result ≡ cached.get_context attr index self.now }
    {
        let number = match attr {
            ContextAttr::Rotation => values::at_index(index, &[values::degrees(self.turn)]),
            ContextAttr::Background => {
                values::at_index(index, &values::colour_numbers(self.background))
            }
            ContextAttr::Width => values::at_index(index, &[self.size.w]),
            ContextAttr::Height => values::at_index(index, &[self.size.h]),
            ContextAttr::Lowest => values::at_index(index, &[self.slots.lowest()]),
        };
        number.ok_or(Refused::IllegalArgument)
    }

    /// Returns the scene that a commit takes: the target's size, the turn, the background, which is opaque on a screen, and a
    /// layer for each inserted element, whose source and mask `look` finds; or the first fault from the bottom up.
    pub fn consistent<L: Look>(&self, look: &L) -> Result<Scene, Fault>
        ensures scene { result ≡ scene.consistent (L.sight look.now) self.now }
        ensures orderly { IsOrderly self.now }
        ensures placed { IfOk result (λ made. IsTrue (list_all is_placed_layer made.layers.items)) }
    {
        let layers = layers_of(look, &self.slots)?;
        let background = if self.on_screen {
            Rgba {
                a: 255,
                ..self.background
            }
        } else {
            self.background
        };
        Ok(Scene {
            size: self.size,
            turn: self.turn,
            background,
            layers,
        })
    }
}
