//! Bytes that are compared with others as they are made.

ghost use Rattle.std.specs.Prelude.{◌≡◌, ◌≢◌, ℕ, List, ◌∷◌, ◌<◌, ◌≤◌, ◌++◌, false, get_or, length, take, IfOk, OnErr};
ghost use Rattle.std.specs.Io.{WritesAtMost};
ghost use Rattle.wf_io.specs.Bytes.{Puts, PutsNothing};
ghost use Rattle.wf_io.specs.Causes.{HasCause};
ghost use Rattle.wf_check.specs.Verdicts.{Compares, Finds, Takes};

use crate::verdict::Verdict;
use std::marker::Model;
use wf_io::{Failed, Sink};

/// Compares the bytes that are put with those of a film, and keeps none of them. It never fails.
#[derive(Drop)]
pub(crate) struct Comparison<'a> {
    film: &'a [u8],
    at: usize,
    apart: bool,
}

impl<'a> Model for Comparison<'a> {
    ghost use Rattle.std.specs.Prelude.{◌≤◌, length};
    ghost use Rattle.wf_check.specs.Verdicts.{Compared};

    ghost Value = { Compared };

    ghost view = { λ c. record { film = c.film.now; at = c.at; apart = c.apart } };

    ghost invariant = { λ c. c.at ≤ length c.film.now };
}

/// How many bytes both have in front.
fn common(one: &[u8], other: &[u8]) -> usize
    ensures first { result ≤ length one.now }
    ensures second { result ≤ length other.now }
    ensures same { take result one.now ≡ take result other.now }
    ensures apart { result < length one.now → result < length other.now → get_or one.now result 0 ≢ get_or other.now result 0 }
{
    let most = one.len().min(other.len());
    if one[..most] == other[..most] {
        return most;
    }
    for place in 0..most {
        if one[place] != other[place] {
            return place;
        }
    }
    most
}

impl<'a> Comparison<'a> {
    /// Nothing was compared yet.
    pub(crate) fn new(film: &'a [u8]) -> Comparison<'a>
        ensures made { result ≡ record { film = film.now; at = 0; apart = false } }
        ensures takes { Takes result (length film.now ∷ film.now) }
    {
        Comparison {
            film,
            at: 0,
            apart: false,
        }
    }

    /// Compares further bytes, unless a difference was found.
    fn compare(&mut self, bytes: &[u8])
        ensures film { self.new.film ≡ self.old.film }
        ensures compares { (before : List ℕ) → Compares self.old before → Compares self.new (before ++ bytes.now) }
    {
        if self.apart {
            return;
        }
        let (_, rest) = self.film.split_at(self.at);
        let same = common(rest, bytes);
        self.at += same;
        self.apart = same < bytes.len();
    }

    /// What was found, of all bytes that were put.
    pub(crate) fn verdict(&self) -> Verdict
        ensures { (bytes : List ℕ) → Compares self.now bytes → Finds self.now.film bytes result }
    {
        let at = self.at as u64;
        if self.apart {
            return Verdict::Differs { at };
        }
        if self.at < self.film.len() {
            return Verdict::Differs { at };
        }
        Verdict::Same
    }
}

impl<'a> Sink for Comparison<'a> {
    ghost took = { λ c given. Takes c given };

    ghost faults = { λ c. 0 };

    fn put(&mut self, bytes: &[u8]) -> Result<usize, Failed>
        ensures bound { WritesAtMost result bytes.now }
        ensures progress { IfOk result (λ n. 0 < length bytes.now → 0 < n) }
        ensures taken { IfOk result (λ n. Puts (λ c given. Takes c given) self.old self.new (take n bytes.now)) }
        ensures kept { OnErr result (PutsNothing (λ c given. Takes c given) self.old self.new) }
        ensures cause { HasCause 0 0 result }
    {
        self.compare(bytes);
        Ok(bytes.len())
    }
}
