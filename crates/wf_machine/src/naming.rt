//! The names that a running frame is to streams, each of which the store counts.

ghost use Rattle.std.specs.Prelude.{◌≡◌, ◌≤◌, ◌<◌, ◌+◌, ℕ, [], length, map, IsSome};
ghost use Rattle.std.specs.List.{AllByRecursion};
ghost use Rattle.wf_stream.specs.Names.{AreCounted, HasRoom, NamesFit};
ghost use Rattle.wf_stream.specs.Renames.{Renames};
ghost use Rattle.wf_stream.specs.Streams.{count_of, stream_at};
ghost use Rattle.wf_machine.specs.Naming.{drawn_names, held_names};

use wf_calls::JobKind;
use wf_image::MOST_CONTENTS;
use wf_model::Content;
use wf_stream::{Store, begin_name, end_name};

/// A frame names the streams of its contents, which are kept.
fn begin_contents(store: &mut Store, contents: &[Content])
    requires counted { AreCounted store.old }
    requires kept { AllByRecursion (λ c. IsSome (stream_at c.stream store.old.streams)) contents.now }
    requires few { length contents.now ≤ MOST_CONTENTS }
    requires room { (n : ℕ) → count_of n store.old + MOST_CONTENTS < 4294967295 }
    ensures begins { Renames [] (map (λ c. c.stream) contents.now) store.old store.new }
    ensures streams { store.new.streams ≡ store.old.streams }
{
    for content in contents {
        begin_name(store, content.stream);
    }
}

/// The contents of a frame that ended name their streams no more.
fn end_contents(store: &mut Store, contents: &[Content])
    requires { NamesFit (map (λ c. c.stream) contents.now) store.old }
    ensures { Renames (map (λ c. c.stream) contents.now) [] store.old store.new }
{
    for content in contents {
        end_name(store, content.stream);
    }
}

/// A context's frame names its target, which is kept, and so does the write buffer that is out.
fn begin_target(store: &mut Store, kind: JobKind)
    requires counted { AreCounted store.old }
    requires kept { AllByRecursion (λ n. IsSome (stream_at n store.old.streams)) (drawn_names kind) }
    requires room { HasRoom store.old }
    ensures begins { Renames [] (drawn_names kind) store.old store.new }
    ensures streams { store.new.streams ≡ store.old.streams }
{
    if let JobKind::Context { target, .. } = kind {
        begin_name(store, target);
        begin_name(store, target);
    }
}

/// A context's frame that ended names its target no more, nor does its write buffer.
fn end_target(store: &mut Store, kind: JobKind)
    requires { NamesFit (drawn_names kind) store.old }
    ensures { Renames (drawn_names kind) [] store.old store.new }
{
    if let JobKind::Context { target, .. } = kind {
        end_name(store, target);
        end_name(store, target);
    }
}

/// A frame that begins names the streams of its contents and its target, which are kept.
pub(crate) fn begin_names(store: &mut Store, contents: &[Content], kind: JobKind)
    requires counted { AreCounted store.old }
    requires kept { AllByRecursion (λ c. IsSome (stream_at c.stream store.old.streams)) contents.now }
    requires target { AllByRecursion (λ n. IsSome (stream_at n store.old.streams)) (drawn_names kind) }
    requires few { length contents.now ≤ MOST_CONTENTS }
    requires room { HasRoom store.old }
    ensures begins { Renames [] (held_names contents.now kind) store.old store.new }
    ensures streams { store.new.streams ≡ store.old.streams }
{
    begin_target(store, kind);
    begin_contents(store, contents);
}

/// A frame that ended names no stream any more.
pub(crate) fn end_names(store: &mut Store, contents: &[Content], kind: JobKind)
    requires { NamesFit (held_names contents.now kind) store.old }
    ensures { Renames (held_names contents.now kind) [] store.old store.new }
{
    end_contents(store, contents);
    end_target(store, kind);
}
