//! The calls of composition, by one table. tools/calls writes this file.

ghost use Rattle.std.specs.Prelude.{IsTrue, true};
ghost use Rattle.wf_calls.specs.Creations.{is_creation};
ghost use Rattle.wf_calls.specs.Parts.{is_of_core, part_of};
ghost use Rattle.wf_calls.specs.Requests.{call_of};
ghost use Rattle.wf_core.specs.Steps.{IsGiven};
ghost use Rattle.wf_model.specs.Calls.{core_call};
ghost use Rattle.wf_model.specs.Names.{core_names};
ghost use Rattle.wf_objects.specs.Does.{Does};
ghost use Rattle.wf_objects.specs.Fits.{Fits};
ghost use Rattle.wf_stream.specs.Names.{HasRoom, NamesFit};

use crate::activation::try_set_active;
use crate::commits::try_commit;
use crate::contexts::{
    try_context_destroy, try_context_get, try_context_set, try_screen_context, try_stream_context,
};
use crate::denying::{
    deny_device_new, deny_element_new, deny_link, deny_screen_context, deny_stream_context,
};
use crate::devices::try_device_destroy;
use crate::elements::{
    try_element_above, try_element_below, try_element_destroy, try_element_get, try_element_insert,
    try_element_new, try_element_remove, try_element_set,
};
use crate::sources::{try_link_destroy, try_link_new};
use wf_calls::{Refusal, Request};
use wf_objects::Objects;
use wf_stream::Store;

/// Carries a call of composition out, or refuses it. The screen is that of the port that the call names, where it was
/// declared and the call makes the screen's context.
pub(crate) fn carry_out(
    objects: &mut Objects,
    store: &mut Store,
    call: &Request,
    screen: Option<u32>,
) -> Result<u32, Refusal>
    requires fits { Fits objects.old store.old }
    requires names { NamesFit (core_names objects.old) store.old }
    requires room { HasRoom store.old }
    requires ours { IsTrue (is_of_core (part_of (call_of call.now))) }
    requires given { IsGiven (call_of call.now) screen store.old.streams }
    ensures { Does (λ m. core_call screen m (call_of call.now)) objects.old objects.new store.old store.new result }
{
    match call {
        Request::DeviceNew => objects.add_device(store),
        Request::DeviceDestroy { device } => try_device_destroy(objects, store, *device),
        Request::GetError { device } => objects.take_error(store, *device),
        Request::ScreenContext { device, port } => try_screen_context(
            objects, store, *device, *port, screen,
        ),
        Request::StreamContext { device, stream } => try_stream_context(
            objects, store, *device, *stream,
        ),
        Request::ContextDestroy { device, context } => try_context_destroy(
            objects, store, *device, *context,
        ),
        Request::ElementNew { device, context } => try_element_new(
            objects, store, *device, *context,
        ),
        Request::ElementDestroy { device, element } => try_element_destroy(
            objects, store, *device, *element,
        ),
        Request::SourceNew {
            device,
            context,
            stream,
        } => try_link_new(objects, store, false, *device, *context, *stream),
        Request::SourceDestroy { device, source } => try_link_destroy(
            objects, store, false, *device, *source,
        ),
        Request::MaskNew {
            device,
            context,
            stream,
        } => try_link_new(objects, store, true, *device, *context, *stream),
        Request::MaskDestroy { device, mask } => try_link_destroy(
            objects, store, true, *device, *mask,
        ),
        Request::ElementSet {
            device,
            element,
            attr,
            value,
        } => try_element_set(objects, store, *device, *element, *attr, *value),
        Request::ElementGet {
            device,
            element,
            attr,
            index,
        } => try_element_get(objects, store, *device, *element, *attr, *index),
        Request::ElementInsert {
            device,
            element,
            below,
        } => try_element_insert(objects, store, *device, *element, *below),
        Request::ElementRemove { device, element } => try_element_remove(
            objects, store, *device, *element,
        ),
        Request::ElementAbove { device, element } => try_element_above(
            objects, store, *device, *element,
        ),
        Request::ElementBelow { device, element } => try_element_below(
            objects, store, *device, *element,
        ),
        Request::ContextSet {
            device,
            context,
            attr,
            value,
        } => try_context_set(objects, store, *device, *context, *attr, *value),
        Request::ContextGet {
            device,
            context,
            attr,
            index,
        } => try_context_get(objects, store, *device, *context, *attr, *index),
        Request::Commit { device, context } => try_commit(objects, store, *device, *context),
        Request::Activate { device, context } => try_set_active(
            objects, store, true, *device, *context,
        ),
        Request::Deactivate { device, context } => try_set_active(
            objects, store, false, *device, *context,
        ),
        Request::StreamNew { .. }
        | Request::StreamQueue { .. }
        | Request::StreamDestroy { .. }
        | Request::Acquire { .. }
        | Request::Stat { .. }
        | Request::PortSet { .. }
        | Request::PortGet { .. }
        | Request::Attach { .. }
        | Request::PipeSet { .. }
        | Request::PipeGet { .. }
        | Request::PipeBindPort { .. }
        | Request::DisplaySource { .. }
        | Request::DisplaySourceDestroy { .. }
        | Request::PipeBindSource { .. }
        | Request::CommitDevice
        | Request::CommitPort { .. }
        | Request::CommitPipe { .. }
        | Request::DisplayError
        | Request::BeginNext { .. }
        | Request::BeginPort { .. }
        | Request::BeginContext { .. } => unreachable!(),
    }
}

/// The refusal of a creation for which there is no memory.
pub(crate) fn deny(
    objects: &Objects,
    store: &Store,
    call: &Request,
    screen: Option<u32>,
) -> Result<u32, Refusal>
    requires fits { Fits objects.now store.now }
    requires creation { IsTrue (is_creation (call_of call.now)) }
    requires ours { IsTrue (is_of_core (part_of (call_of call.now))) }
    requires given { IsGiven (call_of call.now) screen store.now.streams }
    ensures { Does (λ _. core_call screen true (call_of call.now)) objects.now objects.now store.now store.now result }
{
    match call {
        Request::DeviceNew => deny_device_new(objects, store),
        Request::ScreenContext { device, port } => deny_screen_context(
            objects, store, *device, *port, screen,
        ),
        Request::StreamContext { device, stream } => deny_stream_context(
            objects, store, *device, *stream,
        ),
        Request::ElementNew { device, context } => deny_element_new(
            objects, store, *device, *context,
        ),
        Request::SourceNew {
            device,
            context,
            stream,
        } => deny_link(objects, store, false, *device, *context, *stream),
        Request::MaskNew {
            device,
            context,
            stream,
        } => deny_link(objects, store, true, *device, *context, *stream),
        Request::StreamNew { .. }
        | Request::StreamQueue { .. }
        | Request::StreamDestroy { .. }
        | Request::Acquire { .. }
        | Request::Stat { .. }
        | Request::DeviceDestroy { .. }
        | Request::GetError { .. }
        | Request::ContextDestroy { .. }
        | Request::ElementDestroy { .. }
        | Request::SourceDestroy { .. }
        | Request::MaskDestroy { .. }
        | Request::ElementSet { .. }
        | Request::ElementGet { .. }
        | Request::ElementInsert { .. }
        | Request::ElementRemove { .. }
        | Request::ElementAbove { .. }
        | Request::ElementBelow { .. }
        | Request::ContextSet { .. }
        | Request::ContextGet { .. }
        | Request::Commit { .. }
        | Request::Activate { .. }
        | Request::Deactivate { .. }
        | Request::PortSet { .. }
        | Request::PortGet { .. }
        | Request::Attach { .. }
        | Request::PipeSet { .. }
        | Request::PipeGet { .. }
        | Request::PipeBindPort { .. }
        | Request::DisplaySource { .. }
        | Request::DisplaySourceDestroy { .. }
        | Request::PipeBindSource { .. }
        | Request::CommitDevice
        | Request::CommitPort { .. }
        | Request::CommitPipe { .. }
        | Request::DisplayError
        | Request::BeginNext { .. }
        | Request::BeginPort { .. }
        | Request::BeginContext { .. } => unreachable!(),
    }
}
