//! The names that some lines bind, by their places.

ghost use Rattle.std.specs.Prelude.{◌≡◌, ◌++◌, ◌∷◌, ◌<◌, ◌^◌, [], length, IfOk, IfSome, OnOk, Some, option_to_list, if◌then◌else◌};
ghost use Rattle.std.specs.Option.{option_copied};
ghost use Rattle.std.specs.Str.{bytes_eq};
ghost use Rattle.wf_script.specs.declared.name.Name.{Name};
ghost use Rattle.wf_turn.specs.Index.{IsIndex, names_of, place_in, told};

use std::alloc::Global;
use wf_names::NameMap;
use wf_script::Name;
use wf_words::NoMemory;

/// How many of the last names are tried one by one. Most names are looked up soon after they are bound.
const NEAR: usize = 4;

/// Names in the order in which they are bound, with the place where each stands first. The map has the same places by the names.
#[derive(Drop)]
pub(crate) struct Index<'a> {
    pub names: Vec<&'a Name>,
    pub firsts: Vec<u32>,
    pub places: NameMap<'a, u32>,
}

/// The letters of a name.
fn letters(name: &Name) -> &[u8]
    ensures { result.now ≡ name.now }
{
    name.as_str().as_bytes()
}

impl<'a> Index<'a> {
    /// No names.
    pub(crate) fn new(alloc: Global) -> Index<'a>
        ensures names { names_of result ≡ [] }
        ensures index { IsIndex result }
    {
        Index {
            names: Vec::new(alloc),
            firsts: Vec::new(alloc),
            places: NameMap::new(alloc),
        }
    }

    /// Adds a name behind all others, if there is one.
    pub(crate) fn add(&mut self, name: Option<&'a Name>) -> Result<(), NoMemory>
        requires index { IsIndex self.old }
        requires few { length (names_of self.old) < 2 ^ 32 }
        ensures names { OnOk result (names_of self.new ≡ names_of self.old ++ option_to_list (option_copied name.entry)) }
        ensures index { OnOk result (IsIndex self.new) }
    {
        match name {
            Some(name) => self.push(name),
            None => Ok(()),
        }
    }

    /// Adds a name behind all others.
    fn push(&mut self, name: &'a Name) -> Result<(), NoMemory>
        requires index { IsIndex self.old }
        requires few { length (names_of self.old) < 2 ^ 32 }
        ensures names { OnOk result (names_of self.new ≡ names_of self.old ++ name.now ∷ []) }
        ensures index { OnOk result (IsIndex self.new) }
    {
        let first = self.note(name)?;
        self.names.push(name)?;
        self.firsts.push(first)?;
        Ok(())
    }

    /// Notes where a name stands that comes behind all others: it may stand before them already. Says where it stands first.
    fn note(&mut self, name: &'a Name) -> Result<u32, NoMemory>
        requires index { IsIndex self.old }
        requires few { length (names_of self.old) < 2 ^ 32 }
        ensures first { IfOk result (λ first. place_in name.now (names_of self.old ++ name.now ∷ []) ≡ Some first) }
        ensures places { OnOk result ((q : Name) → told self.new q ≡ place_in q (names_of self.old ++ name.now ∷ [])) }
        ensures names { OnOk result (self.new.names ≡ self.old.names) }
        ensures firsts { OnOk result (self.new.firsts ≡ self.old.firsts) }
    {
        let place = self.names.len() as u32;
        match self.put(name, place)? {
            None => Ok(place),
            Some(first) => {
                self.put(name, first)?;
                Ok(first)
            }
        }
    }

    /// Tells a place for a name from now on. Says which one was told before.
    fn put(&mut self, name: &'a Name, place: u32) -> Result<Option<u32>, NoMemory>
        ensures before { IfOk result (λ before. before ≡ told self.old name.now) }
        ensures places { OnOk result ((q : Name) → told self.new q ≡ (if bytes_eq name.now q then Some place else told self.old q)) }
        ensures names { OnOk result (self.new.names ≡ self.old.names) }
        ensures firsts { OnOk result (self.new.firsts ≡ self.old.firsts) }
    {
        self.places.insert(letters(name), place)
    }

    /// The place where a name stands first.
    pub(crate) fn place(&self, name: &'a Name) -> Option<u32>
        requires { IsIndex self.now }
        ensures { result ≡ place_in name.now (names_of self.now) }
    {
        self.places.get(letters(name))
    }

    /// The place where a name stands first, if it is one of the last names before a place.
    fn place_near(&self, name: &Name, end: usize) -> Option<u32>
        requires { IsIndex self.now }
        ensures { IfSome result (λ place. place_in name.now (names_of self.now) ≡ Some place) }
    {
        let end = end.min(self.names.len());
        let most = end.min(NEAR);
        for back in 0..most {
            let at = end - 1 - back;
            if self.names[at].as_str() == name.as_str() {
                return Some(self.firsts[at]);
            }
        }
        None
    }

    /// The place where a name stands first. It is looked for among the last names before `end`, and only then among all.
    pub(crate) fn place_from(&self, name: &'a Name, end: usize) -> Option<u32>
        requires { IsIndex self.now }
        ensures { result ≡ place_in name.now (names_of self.now) }
    {
        match self.place_near(name, end) {
            Some(place) => Some(place),
            None => self.place(name),
        }
    }
}
