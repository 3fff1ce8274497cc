//! The sources of pipelines.

ghost use Rattle.std.specs.Prelude.{◌≡◌, ◌+◌, ◌==◌, false, filter, not, IfOk, IsSomeAnd, OnErr, OnOk};
ghost use Rattle.std.specs.Vec.{vec_capacity};
ghost use Rattle.wf_pixel.specs.Choice.{is_a8};
ghost use Rattle.wf_stream.specs.Names.{HasRoom, NamesFit};
ghost use Rattle.wf_stream.specs.Streams.{buffers_at, with_other};
ghost use Rattle.wf_model.specs.Names.{display_names};
ghost use Rattle.wf_model.specs.DisplaySides.{on_display};
ghost use Rattle.wf_model.specs.Pipelines.{all_sources, display_source, display_source_destroy, pixel_stream};
ghost use Rattle.wf_model.specs.Outcome.{lacks_memory, refused_handle, without_value};
ghost use Rattle.wf_display.specs.Does.{Does, Steps};
ghost use Rattle.wf_display.specs.Fits.{Fits};
ghost use Rattle.wf_display.specs.Sides.{KeepsRest, display_side_of};

use crate::display::Display;
use crate::finding::source_at;
use wf_calls::{Code, Refusal, Reply};
use wf_model::{DisplaySource, MOST_SOURCES};
use wf_stream::{Kind, MakeStop, Store, begin_name, end_name};

/// The handle of a new source, under which the store keeps the number of its stream.
fn mint(store: &mut Store, stream: u32) -> Result<u32, Refusal>
    ensures handle { IfOk result (λ handle. handle ≡ store.old.made + 1) }
    ensures made { OnOk result (store.new ≡ with_other Kind.DisplaySource stream store.old) }
    ensures stopped { without_value result ≡ refused_handle store.old.made (lacks_memory result) }
    ensures refused { OnErr result (store.new ≡ store.old) }
{
    match store.mint(Kind::DisplaySource, stream) {
        Ok(handle) => Ok(handle),
        Err(MakeStop::Limit) => Err(Refusal::of(Code::Limit)),
        Err(MakeStop::NoMemory) => Err(Refusal::of(Code::OutOfMemory)),
    }
}

/// The number of a live stream of pixels, or the refusal: BadHandle, or NotSupported for a stream of alphas.
pub(crate) fn pixel_stream(store: &Store, stream: u32) -> Result<u32, Refusal>
    ensures found { result ≡ pixel_stream stream store.now.streams }
    ensures pixels { IfOk result (λ n. IsSomeAnd (buffers_at n store.now.streams) (λ b. is_a8 b.format ≡ false)) }
{
    let Ok(number) = store.number(stream) else {
        return Err(Refusal::of(Code::BadHandle));
    };
    let Some(found) = store.get(number) else {
        unreachable!()
    };
    if found.format().is_a8() {
        return Err(Refusal::of(Code::NotSupported));
    }
    Ok(number)
}

/// Leaves out the source of a handle.
fn leave_out(sources: &mut Vec<DisplaySource>, handle: u32)
    ensures left { sources.new.items ≡ filter (λ s. not (s.handle == handle)) sources.old.items }
    ensures capacity { vec_capacity sources.new ≡ vec_capacity sources.old }
{
    sources.retain(|source| source.handle != handle);
}

impl Display {
    /// As many sources and masks live as may, those of composition included.
    pub(crate) fn all_sources(&self, store: &Store) -> bool
        ensures { result ≡ all_sources (display_side_of self.now store.now) }
    {
        let here = self.sources.len();
        let there = store.live(Kind::Source) as usize + store.live(Kind::Mask) as usize;
        here >= MOST_SOURCES || here + there >= MOST_SOURCES
    }

    pub(crate) fn try_display_source(
        &mut self,
        store: &mut Store,
        pipe: i64,
        stream: u32,
    ) -> Result<u32, Refusal>
        requires fits { Fits self.old store.old }
        requires names { NamesFit (display_names self.old) store.old }
        requires room { HasRoom store.old }
        ensures { Does (display_source pipe stream) self.old self.new store.old store.new result }
    {
        let place = self.pipeline_place(pipe)?;
        let number = pixel_stream(store, stream)?;
        if self.all_sources(store) {
            return Err(Refusal::of(Code::Limit));
        }
        let handle = mint(store, number)?;
        begin_name(store, number);
        self.sources.push_reserved(DisplaySource {
            handle,
            pipeline: place as u32 + 1,
            stream: number,
        });
        Ok(handle)
    }

    pub(crate) fn try_display_source_destroy(
        &mut self,
        store: &mut Store,
        source: u32,
    ) -> Result<u32, Refusal>
        requires fits { Fits self.old store.old }
        requires names { NamesFit (display_names self.old) store.old }
        ensures { Does (λ _. on_display (display_source_destroy source)) self.old self.new store.old store.new result }
    {
        let Some(found) = source_at(&self.sources, source) else {
            return Err(Refusal::of(Code::BadHandle));
        };
        store.kill(source);
        leave_out(&mut self.sources, source);
        end_name(store, found.stream);
        Ok(0)
    }

    /// Makes a source of a pipeline, whose handle it answers. BadHandle is no pipeline, or no live stream; NotSupported a
    /// stream for masks; Limit a 257th source or mask, or that all handles were given.
    pub fn display_source(&mut self, store: &mut Store, pipe: i64, stream: u32) -> Reply
        requires fits { Fits self.old store.old }
        requires names { NamesFit (display_names self.old) store.old }
        requires room { HasRoom store.old }
        ensures { Steps (display_source pipe stream) KeepsRest self.old self.new store.old store.new result }
    {
        let done = self.try_display_source(store, pipe, stream);
        Reply::bare(self.answer(store, done))
    }

    /// Destroys a source. BadHandle is no live source. Its stream has one name fewer, and what is bound stays bound.
    pub fn display_source_destroy(&mut self, store: &mut Store, source: u32) -> Reply
        requires fits { Fits self.old store.old }
        requires names { NamesFit (display_names self.old) store.old }
        ensures { Steps (λ _. on_display (display_source_destroy source)) KeepsRest self.old self.new store.old store.new result }
    {
        let done = self.try_display_source_destroy(store, source);
        Reply::bare(self.answer(store, done))
    }
}
