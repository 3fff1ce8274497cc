//! Pipelines: their attributes, and what they ask to be bound to.

ghost use Rattle.std.specs.Prelude.{◌≡◌};
ghost use Rattle.wf_scene.specs.Values.{at_index, is_count};
ghost use Rattle.wf_model.specs.DisplaySides.{on_display};
ghost use Rattle.wf_model.specs.Pipelines.{may_bind, named_port, pipe_bind_port, pipe_bind_source, pipe_get, pipe_set};
ghost use Rattle.wf_model.specs.Pipelines.{pipeline_numbers, pipeline_styled, unmasked_of};
ghost use Rattle.wf_model.specs.Sides.{KeepsAll};
ghost use Rattle.wf_display.specs.Does.{Does, Steps};
ghost use Rattle.wf_display.specs.Fits.{Fits};

use crate::display::Display;
use crate::finding::source_at;
use wf_calls::{Code, PipeAttr, Refusal, Reply, Transition};
use wf_model::{Pipeline, Request};
use wf_pixel::Transparency;
use wf_scene::{Style, values};
use wf_stream::Store;

/// A number of a call is this count.
fn is_count(count: u32, number: i64) -> bool
    ensures { result ≡ is_count count number }
{
    number >= 0 && number == i64::from(count)
}

/// The transparency of a pipeline, which has no mask.
fn unmasked_of(number: i64) -> Option<Transparency>
    ensures { result ≡ unmasked_of number }
{
    if 0 <= number && number <= 3 {
        values::transparency_of(number)
    } else {
        None
    }
}

/// A style with the transparency of a number from 0 to 3. Up to 7 the refusal is NotSupported.
fn with_transparency(style: Style, value: [i64; 4]) -> Result<Style, Refusal>
    ensures { result ≡ pipeline_styled PipeAttr.Transparency value style }
{
    let number = value[0];
    if !(0 <= number && number <= 7) {
        return Err(Refusal::of(Code::IllegalArgument));
    }
    match unmasked_of(number) {
        Some(transparency) => Ok(Style {
            transparency,
            ..style
        }),
        None => Err(Refusal::of(Code::NotSupported)),
    }
}

/// What a value of an attribute makes of what is cached of a pipeline, or the refusal.
fn styled(pipeline: &Pipeline, attr: PipeAttr, value: [i64; 4]) -> Result<Style, Refusal>
    ensures { result ≡ pipeline_styled attr value pipeline.now.cached }
{
    let style = pipeline.cached;
    let illegal = Refusal::of(Code::IllegalArgument);
    let number = value[0];
    match attr {
        PipeAttr::Dest => Ok(Style {
            dest: values::rect_of(value).ok_or(illegal)?,
            ..style
        }),
        PipeAttr::SrcRect => Ok(Style {
            src: values::rect_of(value).ok_or(illegal)?,
            ..style
        }),
        PipeAttr::Flip => Ok(Style {
            flip: values::flag_of(number).ok_or(illegal)?,
            ..style
        }),
        PipeAttr::Rotation => Ok(Style {
            turn: values::turn_of(number).ok_or(illegal)?,
            ..style
        }),
        PipeAttr::Filter => Ok(Style {
            filter: values::filter_of(number).ok_or(illegal)?,
            ..style
        }),
        PipeAttr::Alpha => Ok(Style {
            alpha: values::channel_of(number).ok_or(illegal)?,
            ..style
        }),
        PipeAttr::Transparency => with_transparency(style, value),
        PipeAttr::Port | PipeAttr::Pending | PipeAttr::Showing => {
            Err(Refusal::of(Code::BadAttribute))
        }
    }
}

/// The number of an attribute of a pipeline at an index, which counts from 0.
fn number(pipeline: &Pipeline, attr: PipeAttr, index: i64) -> Option<u32>
    ensures { result ≡ at_index index (pipeline_numbers attr pipeline.now) }
{
    let style = &pipeline.cached;
    match attr {
        PipeAttr::Dest => values::at_index(index, &values::rect_numbers(style.dest)),
        PipeAttr::SrcRect => values::at_index(index, &values::rect_numbers(style.src)),
        PipeAttr::Flip => values::at_index(index, &[u32::from(style.flip)]),
        PipeAttr::Rotation => values::at_index(index, &[values::degrees(style.turn)]),
        PipeAttr::Filter => values::at_index(index, &[values::filter_number(style.filter)]),
        PipeAttr::Transparency => {
            values::at_index(index, &[values::transparency_number(style.transparency)])
        }
        PipeAttr::Alpha => values::at_index(index, &[u32::from(style.alpha)]),
        PipeAttr::Port => values::at_index(index, &[pipeline.cached_port]),
        PipeAttr::Pending => values::at_index(index, &[u32::from(pipeline.pending.is_some())]),
        PipeAttr::Showing => values::at_index(index, &[u32::from(pipeline.current != 0)]),
    }
}

impl Display {
    /// A port of a number, which is counted from 1, or 0 for none; or the refusal BadHandle.
    fn port_or_none(&self, number: i64) -> Result<u32, Refusal>
        ensures { result ≡ named_port number self.now }
    {
        if 0 <= number && number <= self.ports.len() as i64 {
            Ok(number as u32)
        } else {
            Err(Refusal::of(Code::BadHandle))
        }
    }

    /// A pipeline may be asked to show a source, or none by 0; or the refusal: BadHandle, or IllegalArgument for one of
    /// another pipeline.
    fn may_bind(&self, pipe: i64, source: u32) -> Result<(), Refusal>
        ensures { result ≡ may_bind pipe source self.now }
    {
        if source == 0 {
            return Ok(());
        }
        let Some(found) = source_at(&self.sources, source) else {
            return Err(Refusal::of(Code::BadHandle));
        };
        if !is_count(found.pipeline, pipe) {
            return Err(Refusal::of(Code::IllegalArgument));
        }
        Ok(())
    }

    pub(crate) fn try_pipe_set(
        &mut self,
        store: &Store,
        pipe: i64,
        attr: PipeAttr,
        value: [i64; 4],
    ) -> Result<u32, Refusal>
        requires { Fits self.old store.now }
        ensures { Does (λ _. on_display (pipe_set pipe attr value)) self.old self.new store.now store.now result }
    {
        let place = self.pipeline_place(pipe)?;
        match styled(&self.pipelines[place], attr, value) {
            Ok(style) => self.pipelines[place].cached = style,
            Err(refusal) => return Err(refusal),
        }
        Ok(0)
    }

    pub(crate) fn try_pipe_get(
        &self,
        store: &Store,
        pipe: i64,
        attr: PipeAttr,
        index: i64,
    ) -> Result<u32, Refusal>
        requires { Fits self.now store.now }
        ensures { Does (λ _. on_display (pipe_get pipe attr index)) self.now self.now store.now store.now result }
    {
        let place = self.pipeline_place(pipe)?;
        match number(&self.pipelines[place], attr, index) {
            Some(number) => Ok(number),
            None => Err(Refusal::of(Code::IllegalArgument)),
        }
    }

    pub(crate) fn try_pipe_bind_port(
        &mut self,
        store: &Store,
        pipe: i64,
        port: i64,
    ) -> Result<u32, Refusal>
        requires { Fits self.old store.now }
        ensures { Does (λ _. on_display (pipe_bind_port pipe port)) self.old self.new store.now store.now result }
    {
        let place = self.pipeline_place(pipe)?;
        let port = self.port_or_none(port)?;
        self.pipelines[place].cached_port = port;
        Ok(0)
    }

    pub(crate) fn try_pipe_bind_source(
        &mut self,
        store: &Store,
        pipe: i64,
        source: u32,
        transition: Transition,
    ) -> Result<u32, Refusal>
        requires { Fits self.old store.now }
        ensures { Does (λ _. on_display (pipe_bind_source pipe source transition)) self.old self.new store.now store.now result }
    {
        let place = self.pipeline_place(pipe)?;
        self.may_bind(pipe, source)?;
        self.pipelines[place].request = Some(Request { source, transition });
        Ok(0)
    }

    /// Sets an attribute of a pipeline, which is counted from 1. BadHandle is no pipeline; BadAttribute an attribute that
    /// can't be set; IllegalArgument a number outside its range; NotSupported a transparency by a mask. A commit takes it.
    pub fn pipe_set(
        &mut self,
        store: &mut Store,
        pipe: i64,
        attr: PipeAttr,
        value: [i64; 4],
    ) -> Reply
        requires { Fits self.old store.old }
        ensures { Steps (λ _. on_display (pipe_set pipe attr value)) KeepsAll self.old self.new store.old store.new result }
    {
        let done = self.try_pipe_set(store, pipe, attr, value);
        Reply::bare(self.answer(store, done))
    }

    /// Answers one number of an attribute of a pipeline, by its index from 0. BadHandle is no pipeline; IllegalArgument an
    /// index that the attribute does not have.
    pub fn pipe_get(&mut self, store: &mut Store, pipe: i64, attr: PipeAttr, index: i64) -> Reply
        requires { Fits self.old store.old }
        ensures { Steps (λ _. on_display (pipe_get pipe attr index)) KeepsAll self.old self.new store.old store.new result }
    {
        let done = self.try_pipe_get(store, pipe, attr, index);
        Reply::bare(self.answer(store, done))
    }

    /// Asks for a pipeline to be shown by a port, or by none by 0. BadHandle is no pipeline, or no port. A commit takes it.
    pub fn pipe_bind_port(&mut self, store: &mut Store, pipe: i64, port: i64) -> Reply
        requires { Fits self.old store.old }
        ensures { Steps (λ _. on_display (pipe_bind_port pipe port)) KeepsAll self.old self.new store.old store.new result }
    {
        let done = self.try_pipe_bind_port(store, pipe, port);
        Reply::bare(self.answer(store, done))
    }

    /// Asks for a pipeline to show a source that was made for it, or none by 0, from the commit on or from the port's next
    /// frame on. BadHandle is no pipeline, or no live source; IllegalArgument a source of another pipeline. It replaces an
    /// earlier request.
    pub fn pipe_bind_source(
        &mut self,
        store: &mut Store,
        pipe: i64,
        source: u32,
        transition: Transition,
    ) -> Reply
        requires { Fits self.old store.old }
        ensures { Steps (λ _. on_display (pipe_bind_source pipe source transition)) KeepsAll self.old self.new store.old store.new result }
    {
        let done = self.try_pipe_bind_source(store, pipe, source, transition);
        Reply::bare(self.answer(store, done))
    }
}
