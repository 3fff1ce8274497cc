//! What no clause says: that the objects, and new ones among them, have memory where it is at hand.

ghost use Rattle.std.specs.Prelude.{◌≡◌, false, IfOk, IfSome, IsSomeAnd};
ghost use Rattle.wf_pixel.specs.Choice.{is_a8};
ghost use Rattle.wf_stream.specs.Streams.{buffers_at};
ghost use Rattle.wf_model.specs.Names.{core_names};
ghost use Rattle.wf_objects.specs.Fits.{Fits};
ghost use Rattle.wf_objects.specs.Ours.{AreOurs};

use crate::samples::SIZE;
use std::alloc::Global;
use std::test::Fail;
use wf_calls::{Code, Refusal};
use wf_objects::Objects;
use wf_pixel::Format;
use wf_scene::Seen;
use wf_stream::Store;
use wf_words::NoMemory;

/// No objects, and a store with a stream of pixels.
fn staged(alloc: Global) -> Result<(Objects, Store), NoMemory>
    ensures fits { IfOk result (λ both. Fits both.0 both.1) }
    ensures ours { IfOk result (λ both. AreOurs (core_names both.0) both.1) }
{
    let mut store = Store::new(alloc);
    let Ok(_) = store.make(SIZE, Format::Rgba8Pre, 2) else {
        return Err(NoMemory);
    };
    Ok((Objects::new(alloc)?, store))
}

/// The stream, where it is one of pixels.
fn pixels(store: &Store) -> Option<u32>
    ensures { IfSome result (λ n. IsSomeAnd (buffers_at n store.now.streams) (λ b. is_a8 b.format ≡ false)) }
{
    let stream = store.get(1)?;
    if stream.format().is_a8() {
        return None;
    }
    Some(1)
}

/// The same stream as the target of a context.
fn target(store: &Store) -> Option<Seen>
    ensures { IfSome result (λ seen. IsSomeAnd (buffers_at seen.stream store.now.streams)
        (λ b. (b.size ≡ seen.size) × (is_a8 b.format ≡ false))) }
{
    let stream = store.get(1)?;
    let format = stream.format();
    if format.is_a8() {
        return None;
    }
    Some(Seen {
        stream: 1,
        size: stream.size(),
        format,
    })
}

/// Makes a device, an off-screen context of it, an element and a source of the context, and answers their handles.
fn made(objects: &mut Objects, store: &mut Store) -> Result<[u32; 4], Refusal>
    requires fits { Fits objects.old store.old }
    requires ours { AreOurs (core_names objects.old) store.old }
{
    let none = Refusal::of(Code::BadHandle);
    let device = objects.add_device(store)?;
    let target = target(store).ok_or(none)?;
    objects.check_device(store, device)?;
    objects.prove_few_names();
    let context = objects.add_context(store, device, 0, target)?;
    let place = objects.context_place(store, device, context)?;
    let element = objects.add_element(store, place)?;
    let stream = pixels(store).ok_or(none)?;
    objects.prove_few_names();
    objects.context_place(store, device, context)?;
    let source = objects.add_link(store, false, context, stream)?;
    Ok([device, context, element, source])
}

#[test]
fn creations_have_memory(rt: HostRuntime) -> Result<(), Fail> {
    let (mut objects, mut store) = staged(rt.alloc())?;
    let handles = made(&mut objects, &mut store).ok().ok_or("a refusal")?;
    assert_eq!(rt; handles, [2, 3, 4, 5]);
    Ok(())
}
