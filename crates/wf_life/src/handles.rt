//! The handles of live objects.

ghost use Rattle.std.specs.Prelude.{◌≡◌, ◌+◌, ◌↔◌, [], false, IfOk, OnOk, OnErr, IsErrOf, IsTrue};
ghost use Rattle.std.specs.Result.{result_ok};
ghost use Rattle.wf_life.specs.Handles.{IsOrderly, is_full, is_live, live_count, key_of, with_new, without};
ghost use Rattle.wf_life.specs.Inside.{place_of};

use crate::Kind;
use std::alloc::Global;
use std::collections::BTreeMap;
use std::marker::Model;

/// How many handles are given in all.
const MOST_HANDLES: u32 = 4_294_967_291;

/// Why no handle was given.
#[derive(Clone, Copy, Debug, PartialEq, Eq)]
pub enum MakeStop {
    /// Every handle was given.
    Limit,
    NoMemory,
}

/// No live object of the kind has the handle.
#[derive(Clone, Copy, Debug, PartialEq, Eq)]
pub struct BadHandle;

/// What a handle stands for.
#[derive(Clone, Copy)]
struct Object {
    kind: Kind,
    key: u32,
}

/// The handles of live objects. A handle is never given twice: the first is 1, and each is one more than the
/// one that was given before it.
#[derive(Drop)]
pub struct Handles {
    made: u32,
    live: BTreeMap<u32, Object>,
    counts: [u32; 7],
}

impl Model for Handles {
    ghost use Rattle.wf_life.specs.Handles.{Table};

    ghost Value = { Table };

    ghost use Rattle.wf_life.specs.Inside.{table_of, IsSound};

    ghost view = { table_of };

    ghost invariant = { IsSound };
}

impl Handles {
    /// Makes the handles of no object: none was given yet. It cannot lack memory.
    pub fn new(alloc: Global) -> Handles
        ensures { result ≡ record { made = 0; live = [] } }
    {
        Handles {
            made: 0,
            live: BTreeMap::new(alloc),
            counts: [0; 7],
        }
    }

    /// Tells whether all 4,294,967,291 handles were given.
    pub fn full(&self) -> bool
        ensures { result ≡ is_full self.now.made }
    {
        self.made >= MOST_HANDLES
    }

    /// Gives a handle for a new object of `kind`, which keeps `key` for its owner.
    pub fn make(&mut self, kind: Kind, key: u32) -> Result<u32, MakeStop>
        ensures handle { IfOk result (λ handle. handle ≡ self.old.made + 1) }
        ensures made { OnOk result (self.new ≡ with_new kind key self.old) }
        ensures limit { IsErrOf result MakeStop.Limit ↔ IsTrue (is_full self.old.made) }
        ensures refused { OnErr result (self.new ≡ self.old) }
        ensures fresh { IfOk result (λ handle. is_live handle self.old.live ≡ false) }
        ensures orderly { IsOrderly self.new }
    {
        if self.full() {
            return Err(MakeStop::Limit);
        }
        let handle = self.made + 1;
        let Ok(_) = self.live.insert(handle, Object { kind, key }) else {
            return Err(MakeStop::NoMemory);
        };
        self.made = handle;
        self.counts[place(kind)] += 1;
        Ok(handle)
    }

    /// Returns the key of the live object of `kind` that has `handle`.
    pub fn find(&self, handle: u32, kind: Kind) -> Result<u32, BadHandle>
        ensures found { result_ok result ≡ key_of handle kind self.now.live }
        ensures live { OnOk result (IsTrue (is_live handle self.now.live)) }
        ensures orderly { IsOrderly self.now }
    {
        match self.live.get(&handle) {
            Some(object) if object.kind == kind => Ok(object.key),
            _ => Err(BadHandle),
        }
    }

    /// Ends the life of the object that has `handle`.
    pub fn kill(&mut self, handle: u32)
        requires { IsTrue (is_live handle self.old.live) }
        ensures killed { self.new ≡ record self.old { live = without handle self.old.live } }
        ensures orderly { IsOrderly self.new }
    {
        if let Some(object) = self.live.remove(&handle) {
            self.counts[place(object.kind)] -= 1;
        }
    }

    /// Returns how many objects of `kind` live.
    pub fn live(&self, kind: Kind) -> u32
        ensures count { result ≡ live_count kind self.now.live }
        ensures orderly { IsOrderly self.now }
    {
        self.counts[place(kind)]
    }
}

/// The place of a kind among the counts.
fn place(kind: Kind) -> usize
    ensures { result ≡ place_of kind }
{
    match kind {
        Kind::Stream => 0,
        Kind::Device => 1,
        Kind::Context => 2,
        Kind::Element => 3,
        Kind::Source => 4,
        Kind::Mask => 5,
        Kind::DisplaySource => 6,
    }
}
