//! What ports show.

ghost use Rattle.std.specs.Prelude.{◌≡◌, ◌≤◌, IfOk, IfSome, IsTrue, Some, length, map, option_map};
ghost use Rattle.wf_calls.specs.PortRules.{may_declare};
ghost use Rattle.wf_guard.specs.Screens.{first_size, screen_of};
ghost use Rattle.wf_guard.specs.declared.clients.TheConstants.{OUTPUT};
ghost use Rattle.wf_guard.specs.declared.form.TheConstants.{MOST_PORTS};
ghost use Rattle.wf_model.specs.State.{State};
ghost use Rattle.wf_pixel.specs.Choice.{has_sides, is_side};
ghost use Rattle.wf_serve.specs.Pictures.{forgotten, has_room, kept, last_of, shows};
ghost use Rattle.wf_serve.specs.Ticks.{ended};

use std::alloc::Global;
use std::mem;
use wf_calls::{Job, JobKind, Modes, Ports};
use wf_guard::Screen;
use wf_image::Image;
use wf_pixel::{Format, MOST_SIDE, Size};
use wf_words::NoMemory;

/// The most bytes of a picture.
pub(crate) const FULL: usize = 4 * (MOST_SIDE as usize * MOST_SIDE as usize);

/// Returns the bytes of an `image`.
pub(crate) fn bytes_of(image: &Image) -> &[u8]
    ensures value { result.now ≡ image.now.bytes }
    ensures most { length result.now ≤ FULL }
{
    // How many bytes there are at most follows from the sides.
    let _sides = image.size();
    image.bytes()
}

/// Tells whether `side` may be one of an image.
fn is_side(side: u32) -> bool
    ensures { result ≡ is_side side }
{
    1 <= side && side <= MOST_SIDE
}

/// Returns the size of a port's first mode, or of one pixel where it has none.
fn first_size(sizes: &[Size]) -> Size
    ensures size { result ≡ first_size sizes.now }
    ensures sides { IsTrue (has_sides result) }
{
    if !sizes.is_empty() && is_side(sizes[0].w) && is_side(sizes[0].h) {
        return sizes[0];
    }
    Size { w: 1, h: 1 }
}

/// Makes room for the pictures of a port with these `modes`.
fn screen_of(alloc: Global, modes: &Modes) -> Result<Screen, NoMemory>
    ensures { IfOk result (λ screen. screen ≡ screen_of modes.now) }
{
    let size = first_size(modes.sizes.as_slice());
    Ok(Screen {
        image: Image::new(alloc, size, Format::Rgba8Pre)?,
        is_put: false,
    })
}

/// Makes room for the pictures of each of the `ports`.
pub(crate) fn screens_of(alloc: Global, ports: &Ports) -> Result<Vec<Screen>, NoMemory>
    requires { IsTrue (may_declare ports.now) }
    ensures screens { IfOk result (λ screens. screens.items ≡ map screen_of ports.now.modes.items) }
    ensures few { IfOk result (λ screens. length screens.items ≤ MOST_PORTS) }
{
    let mut screens = Vec::with_capacity(alloc, ports.modes.len())?;
    for modes in ports.modes.as_slice() {
        screens.push(screen_of(alloc, modes)?)?;
    }
    Ok(screens)
}

/// Tells whether an `image` is what a `screen` shows.
pub(crate) fn shows(screen: &Screen, image: &Image) -> bool
    ensures { result ≡ shows image.now screen.now }
{
    if !screen.is_put {
        return false;
    }
    screen.image.size() == image.size() && screen.image.bytes() == image.bytes()
}

/// Returns the bytes of what a `screen` shows, where that has as many as an `image` and the same sides.
pub(crate) fn last_of<'a>(screen: &'a Screen, image: &Image) -> Option<&'a [u8]>
    ensures last { option_map (λ bytes. bytes.now) result ≡ last_of image.now screen.now }
    ensures length { IfSome result (λ bytes. length bytes.now ≡ length image.now.bytes) }
{
    if !screen.is_put {
        return None;
    }
    let last = screen.image.bytes();
    if screen.image.size() == image.size() && last.len() == image.bytes().len() {
        Some(last)
    } else {
        None
    }
}

/// Tells whether a `screen` has room for an `image`.
fn has_room(screen: &Screen, image: &Image) -> bool
    ensures { result ≡ has_room image.now screen.now }
{
    screen.image.size() == image.size() && screen.image.format() == image.format()
}

/// Copies `from` into `image`, which is of the same size and format.
fn copy_image(image: &mut Image, from: &Image)
    requires size { image.old.size ≡ from.now.size }
    requires format { image.old.format ≡ from.now.format }
    ensures { image.new ≡ from.now }
{
    image.bytes_mut().copy_from_slice(from.bytes());
}

/// Makes the picture of a `job` that of a `screen`, which has room for it. Of a port the images change places, since the end of its frame
/// does not look at the pixels.
fn take_picture(screen: &mut Screen, job: &mut Job)
    requires size { screen.old.image.size ≡ job.old.image.size }
    requires format { screen.old.image.format ≡ job.old.image.format }
    ensures image { screen.new ≡ record screen.old { image = job.old.image } }
    ensures ends { (h : State) → ended OUTPUT (Some job.new) h ≡ ended OUTPUT (Some job.old) h }
{
    match job.kind {
        JobKind::Port { .. } => mem::swap(&mut screen.image, &mut job.image),
        JobKind::Context { .. } => copy_image(&mut screen.image, &job.image),
    }
}

/// Lets a `screen` show the picture of a `job`, where it has room for it.
pub(crate) fn keep(screen: &mut Screen, job: &mut Job)
    ensures screen { screen.new ≡ kept job.old.image screen.old }
    ensures ends { (h : State) → ended OUTPUT (Some job.new) h ≡ ended OUTPUT (Some job.old) h }
{
    screen.is_put = has_room(screen, &job.image);
    if screen.is_put {
        take_picture(screen, job);
    }
}

/// Lets a `screen` show nothing.
fn forget(screen: &mut Screen)
    ensures { screen.new ≡ forgotten screen.old }
{
    screen.is_put = false;
}

/// Lets all `screens` show nothing.
pub(crate) fn forget_all(screens: &mut Vec<Screen>)
    ensures forgotten { screens.new.items ≡ map forgotten screens.old.items }
    ensures count { length screens.new.items ≡ length screens.old.items }
{
    for n in 0..screens.len() {
        forget(&mut screens[n]);
    }
}
