//! Where a port or a pipeline is kept that a call names by its number.

ghost use Rattle.std.specs.Prelude.{◌≡◌, ◌+◌, ◌<◌, None, IfOk, MatchOption, length};
ghost use Rattle.wf_words.specs.Keyed.{nth};
ghost use Rattle.wf_words.specs.Whole.{count_of};
ghost use Rattle.wf_model.specs.DisplaySides.{pipeline, port, source_at};
ghost use Rattle.wf_model.specs.Outcome.{at_place};
ghost use Rattle.wf_display.specs.Places.{FindsPlace};

use crate::display::Display;
use wf_calls::{Code, MOST_PIPELINES, Refusal};
use wf_model::DisplaySource;

/// The source of a handle.
pub(crate) fn source_at(sources: &[DisplaySource], handle: u32) -> Option<DisplaySource>
    ensures { result ≡ source_at handle sources.now }
{
    for source in sources {
        if source.handle == handle {
            return Some(*source);
        }
    }
    None
}

impl Display {
    /// The place of a port, which is counted from 1 in calls and from 0 here.
    fn port_at(&self, number: i64) -> Option<usize>
        ensures { MatchOption result (nth (count_of number) self.now.ports ≡ None) (λ place. (count_of number ≡ place + 1)
            × (place < length self.now.ports) × (place < 8)) }
    {
        if 1 <= number && number <= self.ports.len() as i64 {
            Some((number - 1) as usize)
        } else {
            None
        }
    }

    /// The place of a pipeline, which is counted from 1 in calls and from 0 here.
    fn pipeline_at(&self, number: i64) -> Option<usize>
        ensures { MatchOption result (nth (count_of number) self.now.pipelines ≡ None) (λ place. (count_of number ≡ place + 1)
            × (place < length self.now.pipelines) × (place < MOST_PIPELINES)) }
    {
        if 1 <= number && number <= self.pipelines.len() as i64 {
            Some((number - 1) as usize)
        } else {
            None
        }
    }

    /// The place of a port, or the refusal BadHandle.
    pub(crate) fn port_place(&self, number: i64) -> Result<usize, Refusal>
        ensures found { at_place result self.now.ports ≡ port number self.now }
        ensures place { FindsPlace number self.now.ports result }
        ensures few { IfOk result (λ place. place < 8) }
    {
        match self.port_at(number) {
            Some(place) => Ok(place),
            None => Err(Refusal::of(Code::BadHandle)),
        }
    }

    /// The place of a pipeline, or the refusal BadHandle.
    pub(crate) fn pipeline_place(&self, number: i64) -> Result<usize, Refusal>
        ensures found { at_place result self.now.pipelines ≡ pipeline number self.now }
        ensures place { FindsPlace number self.now.pipelines result }
        ensures few { IfOk result (λ place. place < MOST_PIPELINES) }
    {
        match self.pipeline_at(number) {
            Some(place) => Ok(place),
            None => Err(Refusal::of(Code::BadHandle)),
        }
    }
}
