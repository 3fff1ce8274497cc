//! Ports: their attributes, and whether a display is attached.

ghost use Rattle.std.specs.Prelude.{◌≡◌, ◌≤◌, length};
ghost use Rattle.wf_scene.specs.Values.{at_index};
ghost use Rattle.wf_model.specs.DisplaySides.{on_display};
ghost use Rattle.wf_model.specs.Ports.{attach, mode_of, opaque_of, port_get, port_numbers, port_set, port_styled, shown_size};
ghost use Rattle.wf_model.specs.State.{mode_size};
ghost use Rattle.wf_model.specs.Sides.{KeepsAll};
ghost use Rattle.wf_display.specs.Does.{Does, Steps};
ghost use Rattle.wf_display.specs.Fits.{Fits};

use crate::display::Display;
use wf_calls::{Code, PortAttr, Refusal, Reply};
use wf_model::{Port, PortStyle};
use wf_pixel::{Rgba, Size};
use wf_scene::values;
use wf_stream::Store;

/// The mode of a number, counted from 1.
fn mode_of(number: i64, modes: &[Size]) -> Option<u32>
    requires { length modes.now ≤ 4 }
    ensures { result ≡ mode_of number modes.now }
{
    if 1 <= number && number <= modes.len() as i64 {
        Some(number as u32)
    } else {
        None
    }
}

/// The opaque colour of r, g and b, each from 0 to 255.
fn opaque_of(value: [i64; 4]) -> Option<Rgba>
    ensures { result ≡ opaque_of value }
{
    values::colour_of([value[0], value[1], value[2], 255])
}

/// What a value of an attribute makes of what is cached of a port, or the refusal.
fn styled(port: &Port, attr: PortAttr, value: [i64; 4]) -> Result<PortStyle, Refusal>
    ensures { result ≡ port_styled attr value port.now }
{
    let cached = port.cached;
    let style = match attr {
        PortAttr::Mode => match mode_of(value[0], port.modes.as_slice()) {
            Some(mode) => Some(PortStyle { mode, ..cached }),
            None => None,
        },
        PortAttr::Background => match opaque_of(value) {
            Some(background) => Some(PortStyle {
                background,
                ..cached
            }),
            None => None,
        },
        PortAttr::Power => match values::flag_of(value[0]) {
            Some(power) => Some(PortStyle { power, ..cached }),
            None => None,
        },
        PortAttr::Width | PortAttr::Height | PortAttr::Attached => {
            return Err(Refusal::of(Code::BadAttribute));
        }
    };
    style.ok_or(Refusal::of(Code::IllegalArgument))
}

/// The size of a mode, counted from 1.
pub(crate) fn mode_size(modes: &[Size], mode: u32) -> Size
    ensures { result ≡ mode_size mode modes.now }
{
    let size = if mode == 0 {
        None
    } else {
        modes.get(mode as usize - 1).copied()
    };
    size.unwrap_or(Size { w: 1, h: 1 })
}

/// The size that a port shows.
pub(crate) fn shown_size(port: &Port) -> Size
    ensures { result ≡ shown_size port.now }
{
    mode_size(port.modes.as_slice(), port.committed.mode)
}

/// The number of an attribute of a port at an index, which counts from 0.
fn number(port: &Port, attr: PortAttr, index: i64) -> Option<u32>
    ensures { result ≡ at_index index (port_numbers attr port.now) }
{
    let style = port.cached;
    let background = style.background;
    match attr {
        PortAttr::Mode => values::at_index(index, &[style.mode]),
        PortAttr::Background => values::at_index(
            index,
            &[
                background.r as u32,
                background.g as u32,
                background.b as u32,
            ],
        ),
        PortAttr::Power => values::at_index(index, &[u32::from(style.power)]),
        PortAttr::Width => values::at_index(index, &[shown_size(port).w]),
        PortAttr::Height => values::at_index(index, &[shown_size(port).h]),
        PortAttr::Attached => values::at_index(index, &[u32::from(port.attached)]),
    }
}

impl Display {
    pub(crate) fn try_port_set(
        &mut self,
        store: &Store,
        port: i64,
        attr: PortAttr,
        value: [i64; 4],
    ) -> Result<u32, Refusal>
        requires { Fits self.old store.now }
        ensures { Does (λ _. on_display (port_set port attr value)) self.old self.new store.now store.now result }
    {
        let place = self.port_place(port)?;
        let style = styled(&self.ports[place], attr, value)?;
        self.ports[place].cached = style;
        Ok(0)
    }

    pub(crate) fn try_port_get(
        &self,
        store: &Store,
        port: i64,
        attr: PortAttr,
        index: i64,
    ) -> Result<u32, Refusal>
        requires { Fits self.now store.now }
        ensures { Does (λ _. on_display (port_get port attr index)) self.now self.now store.now store.now result }
    {
        let place = self.port_place(port)?;
        number(&self.ports[place], attr, index).ok_or(Refusal::of(Code::IllegalArgument))
    }

    pub(crate) fn try_attach(&mut self, store: &Store, port: i64, on: i64) -> Result<u32, Refusal>
        requires { Fits self.old store.now }
        ensures { Does (λ _. on_display (attach port on)) self.old self.new store.now store.now result }
    {
        let place = self.port_place(port)?;
        let Some(attached) = values::flag_of(on) else {
            return Err(Refusal::of(Code::IllegalArgument));
        };
        self.ports[place].attached = attached;
        Ok(0)
    }

    /// Sets an attribute of a port, which is counted from 1: its mode, its background or its power. BadHandle is no port;
    /// BadAttribute an attribute that can't be set; IllegalArgument a number outside its range. A commit takes it.
    pub fn port_set(
        &mut self,
        store: &mut Store,
        port: i64,
        attr: PortAttr,
        value: [i64; 4],
    ) -> Reply
        requires { Fits self.old store.old }
        ensures { Steps (λ _. on_display (port_set port attr value)) KeepsAll self.old self.new store.old store.new result }
    {
        let done = self.try_port_set(store, port, attr, value);
        Reply::bare(self.answer(store, done))
    }

    /// Answers one number of an attribute of a port, by its index from 0: the cached one, but that the size is the committed
    /// mode's. BadHandle is no port; IllegalArgument an index that the attribute does not have.
    pub fn port_get(&mut self, store: &mut Store, port: i64, attr: PortAttr, index: i64) -> Reply
        requires { Fits self.old store.old }
        ensures { Steps (λ _. on_display (port_get port attr index)) KeepsAll self.old self.new store.old store.new result }
    {
        let done = self.try_port_get(store, port, attr, index);
        Reply::bare(self.answer(store, done))
    }

    /// Attaches a display to a port by 1, or detaches it by 0, at once. BadHandle is no port; IllegalArgument another number.
    pub fn attach(&mut self, store: &mut Store, port: i64, on: i64) -> Reply
        requires { Fits self.old store.old }
        ensures { Steps (λ _. on_display (attach port on)) KeepsAll self.old self.new store.old store.new result }
    {
        let done = self.try_attach(store, port, on);
        Reply::bare(self.answer(store, done))
    }
}
