//! Values that are counted.

ghost use Rattle.std.specs.Prelude.{◌≡◌, ◌<◌, [], None, Some, IfOk, IfErr, OnErr, option_copied};
ghost use Rattle.std.specs.Option.{option_copied_mut};
ghost use Rattle.std.specs.Borrow.{sem};
ghost use Rattle.wf_life.specs.Pool.{kept_at, IsKept, IsHeld, value_at, count_at, first_kept, Changes, retained, released, released_value};

use crate::NoMemory;
use slab::Slab;
use std::alloc::Global;
use std::marker::Model;

/// A value, and how many hold it.
#[derive(Drop)]
pub struct Kept<T> {
    pub value: T,
    pub count: u32,
}

/// Values under keys, each kept until as many let it go as hold it. A key of a value that is gone may be given
/// again.
#[derive(Drop)]
pub struct Pool<T> {
    slots: Slab<Kept<T>>,
}

impl<T> Model for Pool<T> {
    ghost use Rattle.std.specs.Prelude.{List, Option};
    ghost use Rattle.wf_life.specs.declared.pool.Kept.{Kept};
    ghost use Rattle.wf_life.specs.Pool.{IsHeld};

    ghost Value = { List (Option (Kept T)) };

    ghost view = { λ p. p.slots.slots };

    ghost invariant = { λ p. IsHeld p.slots.slots };
}

impl<T> Pool<T> {
    ghost use Rattle.wf_life.specs.Lending.{lends_value};

    /// Makes an empty pool. It cannot lack memory.
    pub fn new(alloc: Global) -> Pool<T>
        ensures { result ≡ [] }
    {
        Pool {
            slots: Slab::new(alloc),
        }
    }

    /// Keeps `value`, which one holds, and returns its key.
    pub fn put(&mut self, value: T) -> Result<usize, (T, NoMemory)>
        ensures free { IfOk result (λ key. kept_at key self.old ≡ None) }
        ensures kept { IfOk result (λ key. Changes self.old self.new key (Some (first_kept value))) }
        ensures refused { OnErr result (self.new ≡ self.old) }
        ensures handed_back { IfErr result (λ refusal. refusal.0 ≡ value) }
        ensures held { IsHeld self.new }
    {
        match self.slots.insert(Kept { value, count: 1 }) {
            Ok(key) => Ok(key),
            Err(refused) => Err((refused.value.value, NoMemory)),
        }
    }

    /// Lets one more hold the value of `key`.
    pub fn retain(&mut self, key: usize)
        requires kept { IsKept key self.old }
        requires room { count_at key self.old < 4294967295 }
        ensures retained { self.new ≡ retained key self.old }
        ensures held { IsHeld self.new }
    {
        if let Some(kept) = self.slots.get_mut(key) {
            kept.count += 1;
        }
    }

    /// Lets one fewer hold the value of `key`. The last one that lets it go gets the value, and then the key is kept no more.
    pub fn release(&mut self, key: usize) -> Option<T>
        requires { IsKept key self.old }
        ensures value { result ≡ released_value key self.old }
        ensures left { self.new ≡ released key self.old }
        ensures held { IsHeld self.new }
    {
        if let Some(kept) = self.slots.get_mut(key) {
            if kept.count > 1 {
                kept.count -= 1;
                return None;
            }
        }
        match self.slots.try_remove(key) {
            Some(kept) => Some(kept.value),
            None => None,
        }
    }

    /// Returns how many hold the value of `key`; 0 where the key is not kept.
    pub fn count(&self, key: usize) -> u32
        ensures { result ≡ count_at key self.now }
    {
        match self.slots.get(key) {
            Some(kept) => kept.count,
            None => 0,
        }
    }

    /// Returns the value of `key`.
    pub fn get(&self, key: usize) -> Option<&T>
        ensures value { option_copied result ≡ value_at key self.now }
        ensures held { IsHeld self.now }
    {
        match self.slots.get(key) {
            Some(kept) => Some(&kept.value),
            None => None,
        }
    }

    /// Returns the value of `key` for writing.
    pub fn get_mut(&mut self, key: usize) -> Option<&mut T>
        ensures* writes_back { sem 𝓛 (lends_value T.row self.entry key result) }
        ensures value { option_copied_mut result ≡ value_at key self.old }
        ensures held { IsHeld self.old }
    {
        match self.slots.get_mut(key) {
            Some(kept) => Some(&mut kept.value),
            None => None,
        }
    }
}
