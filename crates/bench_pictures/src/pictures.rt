//! How long a picture takes, for each kind of layer.

ghost use Rattle.std.specs.Prelude.{◌≡◌, ◌≤◌, IfOk, IsTrue};
ghost use Rattle.wf_pixel.specs.Choice.{has_sides};
ghost use Rattle.wf_model.specs.Picture.{Fits};

use crate::scenes::{KINDS, Kind, layers_of};
use std::alloc::Global;
use std::io;
use std::rt::Clock;
use std::thread::Threads;
use std::time::{Duration, Instant};
use wf_image::{Contents, Image};
use wf_kernel::{picture, picture_rows};
use wf_pixel::{Format, MOST_SIDE, Rgba, Size};
use wf_scene::Scene;

/// How many pictures are timed; the shortest counts.
const ROUNDS: u32 = 60;

const BACKGROUND: Rgba = Rgba {
    r: 31,
    g: 61,
    b: 97,
    a: 255,
};

/// Prints what a pixel of each kind takes, at three sizes.
pub(crate) fn print_times(rt: &(impl Print + Clock + AllocGlobal)) -> io::Result<()> {
    for (w, h) in [(320, 240), (640, 480), (MOST_SIDE, MOST_SIDE)] {
        for kind in KINDS {
            let time = picture_time(rt, rt.alloc(), kind, Size { w, h })?;
            let nanos = time.as_secs_f64() * 1e9 / f64::from(w * h);
            println!(rt;
                "a picture of {w}x{h}, {}: {nanos:.3} ns a pixel",
                kind.name()
            )?;
        }
        let size = Size { w, h };
        let whole = picture_time(rt, rt.alloc(), Kind::Opaque, size)?.as_secs_f64();
        let window = Size {
            w: w * 3 / 4,
            h: h * 3 / 4,
        };
        let part = picture_time(rt, rt.alloc(), Kind::Opaque, window)?.as_secs_f64();
        let nanos = (whole + 15.0 * part) * 1e9 / f64::from(w * h);
        println!(rt;
            "the 16 windows, each whole and on a target of its own: {nanos:.3} ns a pixel"
        )?;
    }
    Ok(())
}

/// Prints how much sooner pictures are painted by several threads than by one, by the clock.
pub(crate) fn print_rows<R: Print + Clock + Threads + Sync + AllocGlobal>(
    rt: &R,
) -> io::Result<()> {
    for (w, h) in [(64, 48), (320, 240), (640, 480), (MOST_SIDE, MOST_SIDE)] {
        for kind in [Kind::Opaque, Kind::Straight, Kind::Translucent] {
            let size = Size { w, h };
            let one = rows_time(rt, kind, size, 1)?.as_secs_f64();
            for workers in [2, 4] {
                let time = rows_time(rt, kind, size, workers)?.as_secs_f64();
                println!(rt;
                    "a picture of {w}x{h}, {}, by {workers} workers: {:.2} times as fast",
                    kind.name(),
                    one / time
                )?;
            }
        }
    }
    Ok(())
}

/// The shortest time of a picture by so many workers.
fn rows_time<R: Clock + Threads + Sync + AllocGlobal>(
    rt: &R,
    kind: Kind,
    size: Size,
    workers: u32,
) -> io::Result<Duration>
    requires w_low { 8 ≤ size.w }
    requires w_high { size.w ≤ MOST_SIDE }
    requires h_low { 8 ≤ size.h }
    requires h_high { size.h ≤ MOST_SIDE }
    requires some { 1 ≤ workers }
    requires few { workers ≤ 16 }
{
    let (scene, contents) = scene_of(rt.alloc(), kind, size)?;
    let mut target = noise(rt.alloc(), size, Format::Rgba8Pre)?;
    let mut least = Duration::MAX;
    for _ in 0..ROUNDS {
        let start = Instant::now(rt)?;
        picture_rows(rt, workers, &scene, &contents, &mut target);
        least = least.min(start.elapsed(rt)?);
    }
    Ok(least)
}

/// The shortest time of a picture.
fn picture_time(clock: &impl Clock, alloc: Global, kind: Kind, size: Size) -> io::Result<Duration>
    requires w_low { 8 ≤ size.w }
    requires w_high { size.w ≤ MOST_SIDE }
    requires h_low { 8 ≤ size.h }
    requires h_high { size.h ≤ MOST_SIDE }
{
    let (scene, contents) = scene_of(alloc, kind, size)?;
    let mut target = noise(alloc, size, Format::Rgba8Pre)?;
    let mut least = Duration::MAX;
    for _ in 0..ROUNDS {
        let start = Instant::now(clock)?;
        picture(&scene, &contents, &mut target);
        least = least.min(start.elapsed(clock)?);
    }
    Ok(least)
}

/// The scene of a kind with its images.
fn scene_of(alloc: Global, kind: Kind, size: Size) -> io::Result<(Scene, Contents)>
    requires w_low { 8 ≤ size.w }
    requires w_high { size.w ≤ MOST_SIDE }
    requires h_low { 8 ≤ size.h }
    requires h_high { size.h ≤ MOST_SIDE }
    ensures size { IfOk result (λ p. p.0.size ≡ size) }
    ensures fits { IfOk result (λ p. Fits p.0 p.1) }
{
    let side = size.w.max(size.h);
    let mut contents = Contents::new();
    contents.put(1, noise(alloc, Size { w: side, h: side }, kind.format())?);
    contents.put(2, noise(alloc, size, Format::A8)?);
    let scene = Scene {
        size,
        turn: kind.turn(),
        background: BACKGROUND,
        layers: layers_of(kind, size),
    };
    Ok((scene, contents))
}

/// An image whose bytes have no pattern.
fn noise(alloc: Global, size: Size, format: Format) -> io::Result<Image>
    requires { IsTrue (has_sides size) }
    ensures size { IfOk result (λ image. image.size ≡ size) }
    ensures format { IfOk result (λ image. image.format ≡ format) }
{
    let Ok(mut image) = Image::new(alloc, size, format) else {
        return Err(io::ErrorKind::OutOfMemory.into());
    };
    scramble(image.bytes_mut());
    Ok(image)
}

/// Writes bytes without a pattern.
fn scramble(bytes: &mut [u8]) {
    let mut x = 12345u32;
    for byte in bytes {
        x ^= x << 13;
        x ^= x >> 17;
        x ^= x << 5;
        *byte = (x % 251) as u8;
    }
}
