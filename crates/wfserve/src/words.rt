//! The words of the command line.

ghost use Rattle.std.specs.Prelude.{IfOk, IfSome, IsTrue, ◌≤◌, length};
ghost use Rattle.wf_calls.specs.PortRules.{may_declare};

use crate::ends::End;
use clap::error::ErrorKind;
use clap::{Arg, ArgAction, ArgMatches, Command, Error};
use std::alloc::{AllocError, Global};
use wf_calls::Ports;
use wf_guard::{Form, MOST_PORTS};
use wf_host::{Mode, ports_of};

/// The most bytes from one row of a framebuffer to the next.
const MOST_STRIDE: u32 = 65_536;

/// What the words ask for: the ports, the form of their pictures, the file for these, and how many bytes a picture of a framebuffer has.
#[derive(Drop)]
pub(crate) struct Asked<'a> {
    pub(crate) ports: Ports,
    pub(crate) form: Form,
    pub(crate) file: &'a str,
    pub(crate) picture: u64,
}

/// Where pictures go: the form, the file, and how many bytes a picture of a framebuffer has.
#[derive(Clone, Copy)]
struct Place<'a> {
    form: Form,
    file: &'a str,
    picture: u64,
}

/// The option `name`.
fn option<'a>(alloc: Global, name: &'a str) -> Arg<'a> {
    Arg::new(alloc, name).long(name)
}

/// The command: the sizes of its ports, as 800x480 or 800x480,320x240, the number of pipelines, and the file for the pictures, which is
/// one of frames or a framebuffer.
fn command<'a>(alloc: Global) -> Result<Command<'a>, AllocError> {
    Command::new(alloc, "wfserve")
        .no_binary_name(true)
        .disable_help_flag(true)
        .arg(option(alloc, "port").required(true))?
        .arg(option(alloc, "pipes").default_value("0"))?
        .arg(option(alloc, "frames"))?
        .arg(option(alloc, "bands").action(ArgAction::SetTrue))?
        .arg(option(alloc, "fb"))?
        .arg(option(alloc, "stride"))
}

/// Returns the mode of `port` that a word as 800x480 names.
fn mode_of(port: u32, word: &str) -> Option<Mode> {
    let (w, h) = word.split_once('x')?;
    Some(Mode {
        port,
        w: w.parse::<u32>().ok()?,
        h: h.parse::<u32>().ok()?,
    })
}

/// Returns the ports of these sizes, which stand apart by commas, with so many pipelines.
fn ports_in(sizes: &str, pipes: &str) -> Option<Ports>
    ensures { IfSome result (λ ports. IsTrue (may_declare ports)) }
{
    let mut modes = [Mode {
        port: 0,
        w: 0,
        h: 0,
    }; MOST_PORTS];
    let mut count = 0usize;
    for word in sizes.split(',') {
        if count >= MOST_PORTS {
            return None;
        }
        modes[count] = mode_of(count as u32 + 1, word)?;
        count += 1;
    }
    ports_of(count as u32, &modes[..count], pipes.parse::<u32>().ok()?)
}

/// Returns how many bytes stand from one row of a framebuffer to the next: as a `word` tells, from those of `w` pixels on, which they are
/// where there is no word.
fn stride_of(word: Option<&str>, w: u32) -> Option<u32> {
    let least = w.checked_mul(4)?;
    let stride = match word {
        Some(word) => word.parse::<u32>().ok()?,
        None => least,
    };
    if least <= stride && stride <= MOST_STRIDE {
        Some(stride)
    } else {
        None
    }
}

/// Returns the place of a framebuffer for pictures of a mode.
fn framebuffer<'a>(file: &'a str, mode: Mode, stride: Option<&str>) -> Option<Place<'a>> {
    let stride = stride_of(stride, mode.w)?;
    Some(Place {
        form: Form::Rows { stride },
        file,
        picture: u64::from(stride) * u64::from(mode.h),
    })
}

/// Returns the place of frames, which are told as the rows that changed where `bands` says so.
fn frames_in(file: &str, bands: bool) -> Place<'_> {
    Place {
        form: if bands { Form::Bands } else { Form::Film },
        file,
        picture: 0,
    }
}

/// Returns where pictures go: to `frames`, which alone may have `bands`, or to a framebuffer, which alone has a `stride`. `mode` is that of
/// the first port.
fn place_of<'a>(
    frames: Option<&'a str>,
    bands: bool,
    fb: Option<&'a str>,
    stride: Option<&str>,
    mode: Mode,
) -> Option<Place<'a>> {
    match (frames, bands, fb, stride) {
        (Some(file), _, None, None) => Some(frames_in(file, bands)),
        (None, false, Some(file), _) => framebuffer(file, mode, stride),
        _ => None,
    }
}

/// Returns what the `matches` of the words ask for.
fn asked_in<'a>(matches: &ArgMatches<'a>) -> Option<Asked<'a>>
    ensures { IfSome result (λ asked. IsTrue (may_declare asked.ports)) }
{
    let sizes = matches.get_str("port")?;
    let ports = ports_in(sizes, matches.get_str("pipes")?)?;
    let first = mode_of(1, sizes.split(',').next()?)?;
    let place = place_of(
        matches.get_str("frames"),
        matches.get_flag("bands"),
        matches.get_str("fb"),
        matches.get_str("stride"),
        first,
    )?;
    Some(Asked {
        ports,
        form: place.form,
        file: place.file,
        picture: place.picture,
    })
}

/// Tells why words are no command.
fn end_of(error: &Error) -> End {
    if error.kind() == ErrorKind::OutOfMemory {
        End::NoMemory
    } else {
        End::Usage
    }
}

/// Returns what `words` ask for, without the program's name.
pub(crate) fn asked_by<'a>(alloc: Global, words: &'a [String]) -> Result<Asked<'a>, End>
    ensures { IfOk result (λ asked. IsTrue (may_declare asked.ports)) }
{
    let Ok(command) = command(alloc) else {
        return Err(End::NoMemory);
    };
    match command.try_get_matches_from(words) {
        Ok(matches) => match asked_in(&matches) {
            Some(asked) => Ok(asked),
            None => Err(End::Usage),
        },
        Err(error) => Err(end_of(&error)),
    }
}
