//! How long the calls on the order of elements take: in a cached scene, which keeps it by links, and in plain vectors.

ghost use Rattle.std.specs.Prelude.{◌<◌, ◌≤◌, length, IfSome};

use std::alloc::Global;
use std::io;
use std::rt::Clock;
use std::time::{Duration, Instant};
use wf_pixel::Size;
use wf_scene::{Cached, MOST_ELEMENTS, MOST_INSERTED};

/// How many calls are timed.
const CALLS: u32 = 100_000;

/// How often they are; the shortest time counts.
const ROUNDS: u32 = 20;

/// A call on the order: an element is taken out, or put directly above another one, or lowest by 0.
#[derive(Clone, Copy)]
struct Change {
    element: u32,
    below: u32,
    is_removal: bool,
}

/// The call of a number: each third one takes an element out, and each other one of the rest puts one lowest.
fn change_of(number: u32) -> Change {
    Change {
        element: 1 + number % 61 * 37 % MOST_ELEMENTS,
        below: if number % 2 == 0 {
            0
        } else {
            1 + number % 53 * 23 % MOST_ELEMENTS
        },
        is_removal: number % 3 == 2,
    }
}

/// The elements in vectors: all of them, and the inserted ones from the bottom up.
#[derive(Drop)]
struct Plain {
    elements: Vec<u32>,
    order: Vec<u32>,
}

/// Where a handle stands.
fn place_of(handles: &[u32], handle: u32) -> Option<usize>
    ensures { IfSome result (λ place. place < length handles.now) }
{
    handles.iter().position(|other| *other == handle)
}

impl Plain {
    fn remove(&mut self, element: u32) -> bool {
        match place_of(&self.order, element) {
            Some(place) => {
                self.order.remove(place);
                true
            }
            None => false,
        }
    }

    fn insert(&mut self, element: u32, below: u32) -> bool {
        if element == below {
            return place_of(&self.order, element).is_some();
        }
        if below != 0 && place_of(&self.order, below).is_none() {
            return false;
        }
        if !self.remove(element) && self.order.len() >= MOST_INSERTED {
            return false;
        }
        let place = match place_of(&self.order, below) {
            Some(place) => place + 1,
            None => 0,
        };
        self.order.insert(place, element).is_ok()
    }

    /// Makes a call on a live element, and says whether it did something.
    fn make(&mut self, change: Change) -> bool {
        if place_of(&self.elements, change.element).is_none() {
            return false;
        }
        if change.is_removal {
            self.remove(change.element)
        } else {
            self.insert(change.element, change.below)
        }
    }
}

/// Makes a call on a live element, and says whether it did something.
fn make(cached: &mut Cached, change: Change) -> bool {
    if !cached.has(change.element) {
        return false;
    }
    if change.is_removal {
        cached.remove(change.element).is_ok()
    } else {
        cached.insert(change.element, change.below).is_ok()
    }
}

/// A cached scene with all elements.
fn in_scene(alloc: Global) -> io::Result<Cached> {
    let Ok(mut cached) = Cached::new(alloc, Size { w: 8, h: 8 }, true) else {
        return Err(io::ErrorKind::OutOfMemory.into());
    };
    for before in 0..MOST_ELEMENTS {
        let element = before + 1;
        if cached.count() < MOST_ELEMENTS && !cached.has(element) {
            cached.add(element);
        }
    }
    Ok(cached)
}

/// The same elements in vectors.
fn in_vectors(alloc: Global) -> io::Result<Plain> {
    let mut elements = Vec::with_capacity(alloc, MOST_ELEMENTS as usize)?;
    for before in 0..MOST_ELEMENTS {
        elements.push(before + 1)?;
    }
    Ok(Plain {
        elements,
        order: Vec::with_capacity(alloc, MOST_INSERTED)?,
    })
}

/// The shortest time of all calls on a cached scene, and how many did something the last time.
fn cached_time(clock: &impl Clock, cached: &mut Cached) -> io::Result<(Duration, u32)> {
    let mut least = Duration::MAX;
    let mut done = 0u32;
    for _ in 0..ROUNDS {
        done = 0;
        let start = Instant::now(clock)?;
        for number in 0..CALLS {
            done = done.wrapping_add(u32::from(make(cached, change_of(number))));
        }
        least = least.min(start.elapsed(clock)?);
    }
    Ok((least, done))
}

/// The same on vectors.
fn plain_time(clock: &impl Clock, plain: &mut Plain) -> io::Result<(Duration, u32)> {
    let mut least = Duration::MAX;
    let mut done = 0u32;
    for _ in 0..ROUNDS {
        done = 0;
        let start = Instant::now(clock)?;
        for number in 0..CALLS {
            done = done.wrapping_add(u32::from(plain.make(change_of(number))));
        }
        least = least.min(start.elapsed(clock)?);
    }
    Ok((least, done))
}

/// Prints both times.
pub(crate) fn print_times(rt: &(impl Print + Clock + AllocGlobal)) -> io::Result<()> {
    let (by_links, done) = cached_time(rt, &mut in_scene(rt.alloc())?)?;
    let (by_vectors, same) = plain_time(rt, &mut in_vectors(rt.alloc())?)?;
    println!(rt;
        "{CALLS} calls on the order of {MOST_ELEMENTS} elements, {done} done by links, {same} by vectors: {} us by links, {} us by vectors",
        by_links.as_micros(),
        by_vectors.as_micros()
    )
}
