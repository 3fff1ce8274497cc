//! Names of streams, which begin and end where a pipeline changes.

ghost use Rattle.std.specs.Prelude.{◌≡◌, ℕ, ◌<◌, ◌≤◌, [], length};
ghost use Rattle.wf_stream.specs.Names.{AreCounted, NamesFit, Recounts, but_names};
ghost use Rattle.wf_stream.specs.Streams.{count_of};
ghost use Rattle.wf_model.specs.Names.{display_names, pipeline_names};
ghost use Rattle.wf_display.specs.Named.{AreKept};

use crate::display::Display;
use wf_model::{MOST_DISPLAY_NAMES, Pipeline};
use wf_stream::{Store, begin_name, end_name};

/// The names of a pipeline begin: what it shows, and what waits there.
fn begin_names(store: &mut Store, pipeline: Pipeline)
    requires counted { AreCounted store.old }
    requires kept { AreKept (pipeline_names pipeline) store.old }
    requires room { (n : ℕ) → count_of n store.old < 4000000000 }
    ensures names { Recounts [] (pipeline_names pipeline) store.old store.new }
    ensures streams { store.new.streams ≡ store.old.streams }
    ensures none { count_of 0 store.new ≡ count_of 0 store.old }
    ensures rest { but_names store.new ≡ but_names store.old }
{
    begin_name(store, pipeline.current);
    if let Some(stream) = pipeline.pending {
        begin_name(store, stream);
    }
}

/// The names of a pipeline end.
fn end_names(store: &mut Store, pipeline: Pipeline)
    requires { NamesFit (pipeline_names pipeline) store.old }
    ensures names { Recounts (pipeline_names pipeline) [] store.old store.new }
    ensures none { count_of 0 store.new ≡ count_of 0 store.old }
    ensures rest { but_names store.new ≡ but_names store.old }
{
    end_name(store, pipeline.current);
    if let Some(stream) = pipeline.pending {
        end_name(store, stream);
    }
}

/// A pipeline changes: its new names begin before its old ones end, so a stream that stays named is not dropped.
pub(crate) fn rename(store: &mut Store, old: Pipeline, new: Pipeline)
    requires names { NamesFit (pipeline_names old) store.old }
    requires kept { AreKept (pipeline_names new) store.old }
    requires room { (n : ℕ) → count_of n store.old < 4000000000 }
    ensures names { Recounts (pipeline_names old) (pipeline_names new) store.old store.new }
    ensures none { count_of 0 store.new ≡ count_of 0 store.old }
    ensures rest { but_names store.new ≡ but_names store.old }
{
    begin_names(store, new);
    end_names(store, old);
}

impl Display {
    /// Shows the prover that there are few names of streams: those of screens, of sources, and two of each pipeline. Does nothing
    /// at run time.
    pub fn prove_few_names(&self)
        ensures { length (display_names self.now) ≤ MOST_DISPLAY_NAMES }
    {
        let _sources = &self.sources;
    }
}
