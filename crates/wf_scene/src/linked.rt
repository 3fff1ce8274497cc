//! Links of slots: the slots of the inserted elements from the bottom up, and the free slots.

ghost use Rattle.std.specs.Prelude.{◌≡◌, ◌<◌, true, false, ◌∷◌, IfOk, length};
ghost use Rattle.std.specs.Option.{ForSome};
ghost use Rattle.wf_words.specs.Keyed.{is_in};
ghost use Rattle.wf_links.specs.Lists.{put_above, without};
ghost use Rattle.wf_scene.specs.Slots.{IsAllFree, IsLinked, free_in, inserted_in, two_lists};

use crate::MOST_ELEMENTS;
use std::alloc::Global;
use wf_links::Links;
use wf_words::NoMemory;

/// How many slots there are: one for each element.
pub(crate) const SLOTS: usize = MOST_ELEMENTS as usize;

/// The list of the slots of the inserted elements, from the bottom up.
pub(crate) const INSERTED: u32 = 0;

/// The list of the free slots.
const FREE: u32 = 1;

/// Links in which each slot is free.
pub(crate) fn all_free(alloc: Global) -> Result<Links, NoMemory>
    ensures { IfOk result IsAllFree }
{
    let mut links = Links::new(alloc, MOST_ELEMENTS, 2)?;
    for free in 0..MOST_ELEMENTS {
        links.insert_above(FREE, free, None);
    }
    Ok(links)
}

/// Whether the element of a slot is inserted.
pub(crate) fn is_inserted(links: &Links, slot: u32) -> bool
    requires linked { IsLinked links.now }
    requires slot { slot < MOST_ELEMENTS }
    ensures { result ≡ is_in slot (inserted_in links.now) }
{
    match links.list_of(slot) {
        Some(list) => list == INSERTED,
        None => false,
    }
}

/// Takes the slot of an inserted element out of the order.
#[tactic(auto, using(crate::proofs::TwoLists::without_inserted))]
pub(crate) fn take_out(links: &mut Links, slot: u32)
    requires linked { IsLinked links.old }
    requires slot { is_in slot (inserted_in links.old) ≡ true }
    ensures left { links.new ≡ two_lists (without slot (inserted_in links.old)) (free_in links.old) }
    ensures linked { IsLinked links.new }
{
    links.remove(slot);
}

/// Puts a used slot into the order, directly above another, or lowest where none is given.
pub(crate) fn put_in(links: &mut Links, slot: u32, base: Option<u32>)
    requires linked { IsLinked links.old }
    requires slot { slot < MOST_ELEMENTS }
    requires out { is_in slot (inserted_in links.old) ≡ false }
    requires used { is_in slot (free_in links.old) ≡ false }
    requires base { ForSome base (λ b. is_in b (inserted_in links.old) ≡ true) }
    ensures put { links.new ≡ two_lists (put_above base slot (inserted_in links.old)) (free_in links.old) }
    ensures linked { IsLinked links.new }
{
    links.insert_above(INSERTED, slot, base);
}

/// Takes a free slot, to be used. There is one.
#[tactic(auto, using(crate::proofs::TwoLists::free_slots))]
pub(crate) fn take_free(links: &mut Links) -> u32
    requires linked { IsLinked links.old }
    requires some { 0 < length (free_in links.old) }
    ensures free { is_in result (free_in links.old) ≡ true }
    ensures within { result < MOST_ELEMENTS }
    ensures left { links.new ≡ two_lists (inserted_in links.old) (without result (free_in links.old)) }
    ensures linked { IsLinked links.new }
{
    let Some(free) = links.lowest(FREE) else {
        unreachable!()
    };
    links.remove(free);
    free
}

/// Gives back a slot that is used no more.
pub(crate) fn give_back(links: &mut Links, slot: u32)
    requires linked { IsLinked links.old }
    requires slot { slot < MOST_ELEMENTS }
    requires out { is_in slot (inserted_in links.old) ≡ false }
    requires used { is_in slot (free_in links.old) ≡ false }
    ensures given { links.new ≡ two_lists (inserted_in links.old) (slot ∷ free_in links.old) }
    ensures linked { IsLinked links.new }
{
    links.insert_above(FREE, slot, None);
}
