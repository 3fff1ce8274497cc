//! The program `cases_scene`: plays cases of a context's cached scene.
#![tactic(auto)]

mod shown;

use shown::Shown;
use std::alloc::{AllocError, Global};
use std::io;
use std::process::ExitCode;
use wf_cases::{
    Stage, context_attr, element_attr, number, told_layer, told_scene, value, word, words_of,
};
use wf_pixel::Size;
use wf_scene::{Cached, Fault, Refused};

/// The target of each scene.
const TARGET: Size = Size { w: 4, h: 2 };

/// A cached scene.
#[derive(Drop)]
struct Scenes {
    cached: Option<Cached>,
}

fn main(rt: HostRuntime) -> io::Result<ExitCode> {
    wf_cases::play::<Scenes, HostRuntime>(&rt)
}

impl<R: AllocGlobal> Stage<R> for Scenes {
    fn opened(_alloc: Global) -> Scenes {
        Scenes { cached: None }
    }

    fn answer(&mut self, rt: &R, call: &str) -> Result<String, AllocError> {
        let alloc = rt.alloc();
        let words = words_of(alloc, call)?;
        let words = words.as_slice();
        let call = word(words, 0);
        if call == "screen" || call == "offscreen" {
            self.cached = Cached::new(alloc, TARGET, call == "screen").ok();
            return format!(in alloc; "done");
        }
        let Some(cached) = &mut self.cached else {
            return format!(in alloc; "no scene");
        };
        match call {
            "consistent" => consistent(alloc, cached),
            "layer" => layer(alloc, cached, number(words, 1)),
            "count" => format!(in alloc; "{}", cached.count()),
            "first" => format!(in alloc; "{}", cached.first().unwrap_or(0)),
            _ => told(alloc, answer(cached, words)),
        }
    }
}

/// What a call answers, or None where its condition does not hold.
fn told(alloc: Global, answer: Option<Result<u32, Refused>>) -> Result<String, AllocError> {
    match answer {
        Some(Ok(value)) => format!(in alloc; "Ok {value}"),
        Some(Err(refused)) => format!(in alloc; "{refused:?}"),
        None => format!(in alloc; "not done"),
    }
}

/// A value of 0, where a call is carried out.
fn zero(answer: Result<(), Refused>) -> Option<Result<u32, Refused>> {
    match answer {
        Ok(()) => Some(Ok(0)),
        Err(refused) => Some(Err(refused)),
    }
}

/// A call on the context or on a new element.
fn answer(cached: &mut Cached, words: &[&str]) -> Option<Result<u32, Refused>> {
    let element: u32 = number(words, 1);
    match word(words, 0) {
        "cset" => zero(cached.set_context(context_attr(words, 1), value(words, 2))),
        "cget" => Some(cached.get_context(context_attr(words, 1), number(words, 2))),
        "add" if 0 < element && cached.count() < 64 && !cached.has(element) => {
            cached.add(element);
            Some(Ok(0))
        }
        _ if cached.has(element) => live(cached, element, words),
        _ => None,
    }
}

/// A call on an element that lives here.
fn live(cached: &mut Cached, element: u32, words: &[&str]) -> Option<Result<u32, Refused>> {
    if !cached.has(element) {
        return None;
    }
    let attr = element_attr(words, 2);
    let value = value(words, 3);
    match word(words, 0) {
        "set" if attr.may_take(value) => zero(cached.set(element, attr, value)),
        "get" => Some(cached.get(element, attr, number(words, 3))),
        "insert" => zero(cached.insert(element, number(words, 2))),
        "remove" => zero(cached.remove(element)),
        "above" => Some(cached.above(element)),
        "below" => Some(cached.below(element)),
        "forget" => {
            cached.forget(element);
            Some(Ok(0))
        }
        _ => None,
    }
}

/// The scene that a commit would take, or its first fault.
fn consistent(alloc: Global, cached: &Cached) -> Result<String, AllocError> {
    match cached.consistent(&Shown::new()) {
        Ok(scene) => told_scene(alloc, &scene),
        Err(Fault { place, rule }) => format!(in alloc; "place {place} rule {rule}"),
    }
}

/// A layer of that scene.
fn layer(alloc: Global, cached: &Cached, place: usize) -> Result<String, AllocError> {
    match cached.consistent(&Shown::new()) {
        Ok(scene) => told_layer(alloc, &scene, place),
        Err(_) => format!(in alloc; "no scene"),
    }
}
