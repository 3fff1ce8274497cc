//! Maps by names.
#![tactic(auto)]

ghost use Rattle.std.specs.Prelude.{◌≡◌, List, ℕ, None, Some, IfOk, OnOk, OnErr, if◌then◌else◌};
ghost use Rattle.std.specs.Str.{bytes_eq};
ghost use Rattle.wf_names.specs.Keys.{number_of, told};

use std::alloc::Global;
use std::collections::BTreeMap;
use std::marker::Model;
use wf_words::NoMemory;

/// The value of each name, behind the number that the name's last eight letters write: most names are told apart by their numbers,
/// and letters are compared only where two numbers are the same.
#[derive(Drop)]
pub struct NameMap<'a, V> {
    values: BTreeMap<(u64, &'a [u8]), V>,
}

impl<'a, V> Model for NameMap<'a, V> {
    ghost use Rattle.std.specs.Prelude.{List};
    ghost use Rattle.wf_names.specs.Keys.{Key};

    ghost Value = { List (Key × V) };

    ghost view = { λ m. m.values.entries };
}

/// The number that the last eight letters of a name write in base 256. Only speed rests on it.
#[tactic(auto, using(std::proofs::lemmas::List::Sums::fold_more), unfolding(crate::specs::Keys::number_of))]
fn number_of(name: &[u8]) -> u64
    ensures { result ≡ number_of name.now }
{
    let mut number: u64 = 0;
    for letter in name {
        number = number.wrapping_shl(8).wrapping_add(u64::from(*letter));
    }
    number
}

impl<'a, V: Copy> NameMap<'a, V> {
    /// Makes a map without names.
    pub fn new(alloc: Global) -> NameMap<'a, V>
        ensures { (name : List ℕ) → told result name ≡ None }
    {
        NameMap {
            values: BTreeMap::new(alloc),
        }
    }

    /// Returns the value of `name`, or `None` where it has none.
    pub fn get(&self, name: &'a [u8]) -> Option<V>
        ensures { result ≡ told self.now name.now }
    {
        self.values.get(&(number_of(name), name)).copied()
    }

    /// Gives `name` this `value`, and returns the value that it had before. Where memory is refused, each name keeps its value.
    pub fn insert(&mut self, name: &'a [u8], value: V) -> Result<Option<V>, NoMemory>
        ensures before { IfOk result (λ before. before ≡ told self.old name.now) }
        ensures told { OnOk result ((word : List ℕ)
            → told self.new word ≡ (if bytes_eq name.now word then Some value else told self.old word)) }
        ensures kept { OnErr result ((word : List ℕ) → told self.new word ≡ told self.old word) }
    {
        let before = self.values.insert((number_of(name), name), value)?;
        Ok(before)
    }
}
