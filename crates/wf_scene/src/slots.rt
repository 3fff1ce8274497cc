//! The elements of a cached scene in the slots of a table, and the order of the inserted ones, which is kept by links.

ghost use Rattle.std.specs.Prelude.{◌≡◌, ◌<◌, true, false, ◌∷◌, [], ◌++◌, IfOk, IsTrue, length, option_map, slice_get};
ghost use Rattle.std.specs.Option.{ForSome};
ghost use Rattle.wf_words.specs.Keyed.{is_in};
ghost use Rattle.wf_links.specs.Lists as lists;
ghost use Rattle.wf_scene.specs.Order as orders;
ghost use Rattle.wf_scene.specs.Cached as cached;
ghost use Rattle.wf_scene.specs.Elements.{new_element};
ghost use Rattle.wf_scene.specs.Slots.{IsEmpty, IsKept, elements_in, free_in, handle_or_none, inserted_in, order_in, slot_of, two_lists};

use crate::element::Element;
use crate::linked::{self, INSERTED, SLOTS};
use crate::{MOST_ELEMENTS, MOST_INSERTED};
use arrayvec::ArrayVec;
use std::alloc::Global;
use wf_links::Links;
use wf_words::NoMemory;

/// A table of slots, each with an element or free; the used slots, in the order in which their elements were added; the
/// links, which have the slots of the inserted elements from the bottom up, and the free slots; and how many are inserted.
#[derive(Drop)]
pub(crate) struct Slots {
    pub(crate) table: Vec<Element>,
    used: ArrayVec<u32, SLOTS>,
    pub(crate) links: Links,
    inserted: u32,
}

impl Slots {
    /// Slots of which none is used.
    pub(crate) fn new(alloc: Global) -> Result<Slots, NoMemory>
        ensures { IfOk result IsEmpty }
    {
        let table = vec![in alloc; Element::new(0); SLOTS]?;
        let links = linked::all_free(alloc)?;
        Ok(Slots {
            table,
            used: ArrayVec::new(),
            links,
            inserted: 0,
        })
    }

    /// How many elements live here.
    pub(crate) fn count(&self) -> u32
        requires { IsKept self.now }
        ensures { result ≡ length (elements_in self.now) }
    {
        self.used.len() as u32
    }

    /// The slot of an element, if it lives here.
    fn slot_of(&self, handle: u32) -> Option<u32>
        requires { IsKept self.now }
        ensures { result ≡ slot_of self.now.table.items handle self.now.used.items }
    {
        for slot in self.used.as_slice() {
            if self.table[*slot as usize].handle == handle {
                return Some(*slot);
            }
        }
        None
    }

    /// The slot of a live element.
    pub(crate) fn live_slot(&self, handle: u32) -> u32
        requires kept { IsKept self.now }
        requires live { IsTrue (cached.is_live handle (elements_in self.now)) }
        ensures slot { slot_of self.now.table.items handle self.now.used.items ≡ Some result }
        ensures used { is_in result self.now.used.items ≡ true }
        ensures within { result < length self.now.table.items }
    {
        match self.slot_of(handle) {
            Some(slot) => slot,
            None => unreachable!(),
        }
    }

    /// An element lives here.
    pub(crate) fn has(&self, handle: u32) -> bool
        requires { IsKept self.now }
        ensures { result ≡ cached.is_live handle (elements_in self.now) }
    {
        self.slot_of(handle).is_some()
    }

    /// The element of a handle.
    pub(crate) fn find(&self, handle: u32) -> Option<Element>
        requires { IsKept self.now }
        ensures { result ≡ cached.element_at handle (elements_in self.now) }
    {
        let slot = self.slot_of(handle)?;
        Some(self.table[slot as usize])
    }

    /// The handle of the first element, in the order in which they were added.
    pub(crate) fn first(&self) -> Option<u32>
        requires { IsKept self.now }
        ensures { result ≡ option_map cached.handle_of (slice_get (elements_in self.now) 0) }
    {
        match self.used.as_slice().first() {
            Some(slot) => Some(self.table[*slot as usize].handle),
            None => None,
        }
    }

    /// One more element, with the initial attributes.
    pub(crate) fn add(&mut self, handle: u32)
        requires kept { IsKept self.old }
        requires room { length (elements_in self.old) < MOST_ELEMENTS }
        requires fresh { cached.is_live handle (elements_in self.old) ≡ false }
        ensures elements { elements_in self.new ≡ elements_in self.old ++ new_element handle ∷ [] }
        ensures order { order_in self.new ≡ order_in self.old }
        ensures kept { IsKept self.new }
    {
        let slot = linked::take_free(&mut self.links);
        self.table[slot as usize] = Element::new(handle);
        self.used.push(slot);
    }

    /// A live element less, and the order without it.
    pub(crate) fn forget(&mut self, handle: u32)
        requires kept { IsKept self.old }
        requires live { IsTrue (cached.is_live handle (elements_in self.old)) }
        ensures elements { elements_in self.new ≡ cached.without_element handle (elements_in self.old) }
        ensures order { order_in self.new ≡ orders.without handle (order_in self.old) }
        ensures kept { IsKept self.new }
    {
        let slot = self.live_slot(handle);
        self.take_out(slot);
        linked::give_back(&mut self.links, slot);
        drop_slot(&mut self.used, slot);
    }

    /// The slot of an inserted element.
    fn inserted_slot(&self, handle: u32) -> Option<u32>
        requires { IsKept self.now }
        ensures { result ≡ slot_of self.now.table.items handle (inserted_in self.now.links) }
    {
        let slot = self.slot_of(handle)?;
        if linked::is_inserted(&self.links, slot) {
            Some(slot)
        } else {
            None
        }
    }

    /// Whether an element is inserted.
    pub(crate) fn is_inserted(&self, handle: u32) -> bool
        requires { IsKept self.now }
        ensures { result ≡ is_in handle (order_in self.now) }
    {
        self.inserted_slot(handle).is_some()
    }

    /// Whether something may stand directly above a handle: above the bottom, which 0 stands for, or an inserted element.
    pub(crate) fn is_base(&self, base: u32) -> bool
        requires { IsKept self.now }
        ensures { result ≡ orders.is_base base (order_in self.now) }
    {
        base == 0 || self.is_inserted(base)
    }

    /// Whether there is no room for an element: the most are inserted, and it is none of them.
    pub(crate) fn has_no_room(&self, handle: u32) -> bool
        requires { IsKept self.now }
        ensures { result ≡ orders.has_no_room handle (order_in self.now) }
    {
        self.inserted as usize >= MOST_INSERTED && !self.is_inserted(handle)
    }

    /// The lowest handle, or 0.
    pub(crate) fn lowest(&self) -> u32
        requires { IsKept self.now }
        ensures { result ≡ orders.lowest (order_in self.now) }
    {
        self.handle_or_none(self.links.lowest(INSERTED))
    }

    /// The handle directly above another, 0 above the highest, or None where that is not inserted.
    pub(crate) fn above(&self, handle: u32) -> Option<u32>
        requires { IsKept self.now }
        ensures { result ≡ orders.above handle (order_in self.now) }
    {
        let slot = self.inserted_slot(handle)?;
        Some(self.handle_or_none(self.links.above(slot)))
    }

    /// The handle directly below another, 0 below the lowest, or None where that is not inserted.
    pub(crate) fn below(&self, handle: u32) -> Option<u32>
        requires { IsKept self.now }
        ensures { result ≡ orders.below handle (order_in self.now) }
    {
        let slot = self.inserted_slot(handle)?;
        Some(self.handle_or_none(self.links.below(slot)))
    }

    /// The handle in a slot, or 0 where none is given.
    fn handle_or_none(&self, slot: Option<u32>) -> u32
        requires { ForSome slot (λ s. s < length self.now.table.items) }
        ensures { result ≡ handle_or_none self.now.table.items slot }
    {
        match slot {
            Some(slot) => self.table[slot as usize].handle,
            None => 0,
        }
    }

    /// Takes an inserted element out of the order.
    pub(crate) fn remove(&mut self, handle: u32)
        requires kept { IsKept self.old }
        requires live { IsTrue (cached.is_live handle (elements_in self.old)) }
        ensures elements { elements_in self.new ≡ elements_in self.old }
        ensures order { order_in self.new ≡ orders.without handle (order_in self.old) }
        ensures kept { IsKept self.new }
    {
        let slot = self.live_slot(handle);
        self.take_out(slot);
    }

    /// Puts or moves an element directly above another, or to the bottom where that is 0. Above itself it stays where it is.
    pub(crate) fn insert(&mut self, handle: u32, base: u32)
        requires kept { IsKept self.old }
        requires live { IsTrue (cached.is_live handle (elements_in self.old)) }
        requires named { is_in 0 (cached.handles (elements_in self.old)) ≡ false }
        requires base { IsTrue (orders.is_base base (order_in self.old)) }
        requires room { length (orders.without handle (order_in self.old)) < MOST_INSERTED }
        ensures elements { elements_in self.new ≡ elements_in self.old }
        ensures order { order_in self.new ≡ orders.inserted handle base (order_in self.old) }
        ensures kept { IsKept self.new }
    {
        if handle != base {
            let slot = self.live_slot(handle);
            let under = self.inserted_slot(base);
            self.take_out(slot);
            self.put_in(slot, under);
        }
    }

    /// Takes a used slot out of the order, where its element is inserted.
    fn take_out(&mut self, slot: u32)
        requires kept { IsKept self.old }
        requires used { is_in slot self.old.used.items ≡ true }
        ensures left { self.new ≡ record self.old {
          links = two_lists (lists.without slot (inserted_in self.old.links)) (free_in self.old.links);
          inserted = self.new.inserted;
        } }
        ensures kept { IsKept self.new }
    {
        if linked::is_inserted(&self.links, slot) {
            linked::take_out(&mut self.links, slot);
            self.inserted -= 1;
        }
    }

    /// Puts a used slot into the order, directly above another, or lowest where none is given.
    fn put_in(&mut self, slot: u32, base: Option<u32>)
        requires kept { IsKept self.old }
        requires used { is_in slot self.old.used.items ≡ true }
        requires out { is_in slot (inserted_in self.old.links) ≡ false }
        requires base { ForSome base (λ b. is_in b (inserted_in self.old.links) ≡ true) }
        requires room { length (inserted_in self.old.links) < MOST_INSERTED }
        ensures put { self.new ≡ record self.old {
          links = two_lists (lists.put_above base slot (inserted_in self.old.links)) (free_in self.old.links);
          inserted = self.new.inserted;
        } }
        ensures kept { IsKept self.new }
    {
        linked::put_in(&mut self.links, slot, base);
        self.inserted += 1;
    }
}

/// Drops a slot from those that are used.
fn drop_slot(used: &mut ArrayVec<u32, SLOTS>, slot: u32)
    requires { orders.AreApart used.old.items }
    ensures { used.new.items ≡ orders.without slot used.old.items }
{
    if let Some(place) = place_of(used.as_slice(), slot) {
        used.remove(place);
    }
}

/// How many slots stand before one, or None where it is not there.
fn place_of(slots: &[u32], slot: u32) -> Option<usize>
    ensures { result ≡ orders.place_of slot slots.now }
{
    slots.iter().position(|other| *other == slot)
}
