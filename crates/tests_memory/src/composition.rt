//! What no clause says: that each creation succeeds where memory is at hand.

ghost use Rattle.std.specs.Prelude.{pos, IfOk, IfSome, IsTrue};
ghost use Rattle.wf_pixel.specs.Choice.{is_between};
ghost use Rattle.wf_model.specs.Names.{core_names};
ghost use Rattle.wf_objects.specs.Fits.{Fits};
ghost use Rattle.wf_objects.specs.Ours.{AreOurs};
ghost use Rattle.wf_model.specs.Fitting.{IsOfPixels};

use std::alloc::Global;
use std::test::Fail;
use wf_calls::{Code, Reply};
use wf_core::{Core, NoMemory};
use wf_pixel::{Format, Size};
use wf_stream::Store;

/// The code and the value of a reply.
fn told(reply: Reply) -> (Code, u32) {
    (reply.code, reply.value)
}

/// No objects, and a store with the screen, a stream 1 of one pixel, a stream 2 for masks of 5 by 2, and a stream 3 that a context
/// may draw into.
fn staged(alloc: Global) -> Result<(Core, Store), NoMemory>
    ensures fits { IfOk result (λ both. Fits both.0 both.1) }
    ensures ours { IfOk result (λ both. AreOurs (core_names both.0) both.1) }
{
    let mut store = Store::new(alloc);
    store.screen(Size { w: 4, h: 2 })?;
    let Ok(_) = store.make(Size { w: 1, h: 1 }, Format::Rgba8, 2) else {
        return Err(NoMemory);
    };
    let Ok(_) = store.make(Size { w: 5, h: 2 }, Format::A8, 2) else {
        return Err(NoMemory);
    };
    let Ok(_) = store.make(Size { w: 2, h: 2 }, Format::Rgba8Pre, 2) else {
        return Err(NoMemory);
    };
    Ok((Core::new(alloc)?, store))
}

/// The stream of the screen.
fn screen(store: &Store) -> Option<u32>
    ensures { IfSome result (IsOfPixels store.now.streams) }
{
    let stream = store.get(1)?;
    if stream.format().is_a8() {
        return None;
    }
    Some(1)
}

/// Makes the context of a port, which shows the screen.
fn screened(core: &mut Core, store: &mut Store, device: u32, port: i64) -> (Code, u32)
    requires fits { Fits core.old store.old }
    requires ours { AreOurs (core_names core.old) store.old }
    requires declared { IsTrue (is_between (pos 1) (pos 4) port) }
    ensures fits { Fits core.new store.new }
    ensures ours { AreOurs (core_names core.new) store.new }
{
    core.prove_few_names();
    let screen = screen(store);
    told(core.screen_context(store, device, port, screen))
}

/// Makes a device, two contexts, an element, a source and a mask.
fn made(core: &mut Core, store: &mut Store) -> [(Code, u32); 6]
    requires fits { Fits core.old store.old }
    requires ours { AreOurs (core_names core.old) store.old }
{
    let device = told(core.device_new(store));
    let context = screened(core, store, 4, 1);
    core.prove_few_names();
    let off_screen = told(core.stream_context(store, 4, 3));
    let element = told(core.element_new(store, 4, 5));
    core.prove_few_names();
    let source = told(core.source_new(store, 4, 5, 1));
    core.prove_few_names();
    let mask = told(core.mask_new(store, 4, 5, 2));
    [device, context, off_screen, element, source, mask]
}

#[test]
fn creations_have_memory(rt: HostRuntime) -> Result<(), Fail> {
    let (mut core, mut store) = staged(rt.alloc())?;
    let want = [4, 5, 6, 7, 8, 9].map(|handle| (Code::Ok, handle));
    assert_eq!(rt; made(&mut core, &mut store), want);
    Ok(())
}
