//! The names that lines bind, with the values of those that are bound by now.

ghost use Rattle.std.specs.Prelude.{◌≡◌, ◌++◌, ◌∷◌, ◌<◌, ◌≤◌, [], length, slice_get, take, vec_capacity, IfOk, IfSome, IsTrue, Option};
ghost use Rattle.std.specs.Prelude.{option_to_list};
ghost use Rattle.std.specs.Option.{option_copied};
ghost use Rattle.wf_turn.specs.Index.{IsIndex, names_of};
ghost use Rattle.wf_turn.specs.Names.{bound_by, bound_names, known, value_of};

use crate::index::Index;
use std::alloc::Global;
use std::marker::Model;
use wf_script::{Line, MOST_LINES, Name};
use wf_words::NoMemory;

/// The name that a line binds, if it is a client's.
fn bound_by(client: u8, line: &Line) -> Option<&Name>
    ensures { option_copied result ≡ bound_by client line.now }
{
    if line.client == client && line.verb.creates() {
        line.name.as_ref()
    } else {
        None
    }
}

/// The names that the lines of a client bind.
fn index_of<'a>(alloc: Global, lines: &'a [Line], client: u8) -> Result<Index<'a>, NoMemory>
    requires few { length lines.now ≤ MOST_LINES }
    ensures names { IfOk result (λ index. names_of index ≡ bound_names client lines.now) }
    ensures index { IfOk result IsIndex }
{
    let mut index = Index::new(alloc);
    for line in lines {
        index.add(bound_by(client, line))?;
    }
    Ok(index)
}

/// The value at a place, if there is one.
fn value_at(values: &[u32], place: u32) -> Option<u32>
    ensures { result ≡ slice_get values.now place }
{
    values.get(place as usize).copied()
}

/// The names that some lines bind, in the lines' order, and the values of the first of them.
#[derive(Drop)]
pub(crate) struct Names<'a> {
    index: Index<'a>,
    values: Vec<u32>,
}

impl<'a> Model for Names<'a> {
    ghost use Rattle.wf_turn.specs.Names.{Table};
    ghost use Rattle.wf_turn.specs.Index.{names_of};
    ghost use Rattle.wf_turn.specs.Tables.{IsTable};

    ghost Value = { Table };

    ghost view = { λ t. record { names = names_of t.index; values = t.values.items } };

    ghost invariant = { IsTable };
}

impl<'a> Names<'a> {
    /// The names that the lines of a client bind, without values.
    pub(crate) fn new(alloc: Global, lines: &'a [Line], client: u8) -> Result<Names<'a>, NoMemory>
        requires { length lines.now ≤ MOST_LINES }
        ensures { IfOk result (λ names. names ≡ record { names = bound_names client lines.now; values = [] }) }
    {
        let index = index_of(alloc, lines, client)?;
        let values = Vec::with_capacity(alloc, index.names.len())?;
        Ok(Names { index, values })
    }

    /// The value of a name, if it has one.
    pub(crate) fn value(&self, name: &'a Name) -> Option<u32>
        ensures { result ≡ value_of name.now (known self.now) }
    {
        match self.index.place_from(name, self.values.len()) {
            Some(place) => value_at(&self.values, place),
            None => None,
        }
    }

    /// Gives the next name its value.
    pub(crate) fn bind(&mut self, value: u32)
        requires { length self.old.values < length self.old.names }
        ensures { self.new ≡ record self.old { values = self.old.values ++ value ∷ [] } }
    {
        self.values.push_reserved(value);
    }

    /// Takes over the values of the first names of another table.
    pub(crate) fn learn(&mut self, other: &Names)
        ensures { self.new ≡ record self.old { values = take (length self.old.names) other.now.values } }
    {
        self.values.clear();
        let count = self.index.names.len().min(other.values.len());
        for value in &other.values[..count] {
            self.values.push_reserved(*value);
        }
    }
}
