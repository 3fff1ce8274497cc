//! Keeps the last picture of each port and context, and asks for what changed alone.

ghost use Rattle.std.specs.Prelude.{◌≡◌, ◌<◌, IfOk, IfSome, IsTrue, None, length, map, replicate, sum};
ghost use Rattle.wf_image.specs.Bitmap.{pixel_bytes};
ghost use Rattle.wf_model.specs.Picture.{picture, Fits};
ghost use Rattle.wf_damage.specs.Areas.{areas_of, whole_of};
ghost use Rattle.wf_damage.specs.Bench.{AreKept, IsKept, IsRise, area, asked, kept_at, over_picture, place_of, same_kind, serves};
ghost use Rattle.wf_damage.specs.Compared.{AreCompared};

use crate::NoMemory;
use crate::brush::Brush;
use crate::changes::{areas_by, whole_of};
use crate::comparing::Compared;
use crate::equal::same_format;
use crate::paying::{Rest, pays};
use std::alloc::Global;
use std::marker::Model;
use wf_calls::JobKind;
use wf_image::{Contents, Image};
use wf_kernel::Painter;
use wf_pixel::Rect;
use wf_scene::Scene;

/// How many places a bench has: one for each of four ports, and sixteen for contexts.
const PLACES: usize = 20;

/// A frame that was painted: its kind, its scene, and copies of its images and of its picture.
#[derive(Drop)]
pub struct Kept {
    kind: JobKind,
    scene: Scene,
    contents: Contents,
    picture: Image,
}

/// A painter that keeps the last picture of a port or of a context, with its scene and its images, where it has room and memory for
/// them, and asks its brush for what changed since. It leaves a place empty for a time where keeping costs more than it saves.
#[derive(Drop)]
pub struct Bench<B> {
    /// The most bytes of images and picture that a place keeps.
    room: usize,
    brush: B,
    places: Vec<Option<Kept>>,
    rests: [Rest; PLACES],
}

impl<B> Model for Bench<B> {
    ghost use Rattle.wf_damage.specs.Bench.{Benched, ArePlaces};

    ghost Value = { Benched B };

    ghost view = { λ bench. record { brush = bench.brush; places = bench.places.items } };

    ghost invariant = { λ bench. ArePlaces bench.places.items };
}

impl<B: Brush + Drop> Bench<B> {
    /// Makes a bench whose places are empty, of which each may keep at most `room` bytes of images and picture, and which paints by
    /// `brush`.
    pub fn new(alloc: Global, room: usize, brush: B) -> Result<Bench<B>, NoMemory>
        ensures places { IfOk result (λ bench. bench.places ≡ replicate PLACES None) }
        ensures brush { IfOk result (λ bench. bench.brush ≡ brush) }
    {
        let mut places = Vec::with_capacity(alloc, PLACES)?;
        for _ in 0..PLACES {
            places.push(None)?;
        }
        Ok(Bench {
            room,
            brush,
            places,
            rests: [Rest::none(); PLACES],
        })
    }

    /// Returns how many pixels the brush was asked for, modulo 2^64.
    pub fn painted(&self) -> u64
        ensures { result ≡ B.count self.now.brush }
    {
        self.brush.painted()
    }
}

impl<B: Brush + Drop> Painter for Bench<B> {
    ghost ready = { Unit {0} };

    fn paint(&mut self, kind: &JobKind, scene: &Scene, contents: &Contents, target: &mut Image)
        requires ready { Unit {0} }
        requires size { target.old.size ≡ scene.now.size }
        requires pixels { pixel_bytes target.old.format ≡ 4 }
        requires fits { Fits scene.now contents.now }
        ensures picture { target.new ≡ picture scene.now contents.now target.old.format }
        ensures painted { IsRise (B.count self.old.brush) (B.count self.new.brush)
            (sum (map area (asked (kept_at self.old.places (place_of kind.now)) kind.now scene.now contents.now))) }
        ensures places { AreKept self.old.places self.new.places (place_of kind.now)
            (record { kind = kind.now; scene = scene.now; contents = contents.now; picture = target.new }) }
    {
        let Some(i) = place_of(kind) else {
            paint_whole(&mut self.brush, scene, contents, target);
            return;
        };
        let place = &mut self.places[i];
        let was_kept = place.is_some();
        repaint(
            &mut self.brush,
            place,
            self.room,
            kind,
            scene,
            contents,
            target,
        );
        self.rests[i] = keep(
            place,
            was_kept,
            self.rests[i],
            self.room,
            kind,
            scene,
            contents,
            target,
        );
    }
}

/// Returns which place serves a frame of `kind`.
fn place_of(kind: &JobKind) -> Option<usize>
    ensures place { result ≡ place_of kind.now }
    ensures few { IfSome result (λ i. i < PLACES) }
{
    match kind {
        JobKind::Context { handle, .. } => Some(4 + (*handle % 16) as usize),
        JobKind::Port { port } => {
            if 1 <= *port && *port <= 4 {
                Some((*port - 1) as usize)
            } else {
                None
            }
        }
    }
}

/// Returns whether `a` and `b` are of one context or of one port.
fn same_kind(a: &JobKind, b: &JobKind) -> bool
    ensures { result ≡ same_kind a.now b.now }
{
    match a {
        JobKind::Context { handle, .. } => match b {
            JobKind::Context { handle: other, .. } => *handle == *other,
            JobKind::Port { .. } => false,
        },
        JobKind::Port { port } => match b {
            JobKind::Context { .. } => false,
            JobKind::Port { port: other } => *port == *other,
        },
    }
}

/// Returns whether `kept` serves a frame of `kind` that shows `scene`.
fn serves(kept: &Kept, kind: &JobKind, scene: &Scene) -> bool
    ensures { result ≡ serves kept.now kind.now scene.now }
{
    same_kind(&kept.kind, kind)
        && (kept.scene.size.w == scene.size.w && kept.scene.size.h == scene.size.h)
}

/// Asks `brush` for the whole picture.
fn paint_whole<B: Brush>(brush: &mut B, scene: &Scene, contents: &Contents, target: &mut Image)
    requires size { target.old.size ≡ scene.now.size }
    requires pixels { pixel_bytes target.old.format ≡ 4 }
    requires fits { Fits scene.now contents.now }
    ensures picture { target.new ≡ picture scene.now contents.now target.old.format }
    ensures painted { IsRise (B.count brush.old) (B.count brush.new) (area (whole_of scene.now)) }
{
    brush.part(scene, contents, whole_of(scene), target);
}

/// Paints a frame over what stands in `place`, where that serves it, and leaves there what was painted, or nothing.
fn repaint<B: Brush>(
    brush: &mut B,
    place: &mut Option<Kept>,
    room: usize,
    kind: &JobKind,
    scene: &Scene,
    contents: &Contents,
    target: &mut Image,
)
    requires kept { IfSome place.old IsKept }
    requires size { target.old.size ≡ scene.now.size }
    requires pixels { pixel_bytes target.old.format ≡ 4 }
    requires fits { Fits scene.now contents.now }
    ensures picture { target.new ≡ picture scene.now contents.now target.old.format }
    ensures painted { IsRise (B.count brush.old) (B.count brush.new) (sum (map area (asked place.old kind.now scene.now contents.now))) }
    ensures place { IfSome place.new
        (λ k. k ≡ record { kind = kind.now; scene = scene.now; contents = contents.now; picture = target.new }) }
{
    if let Some(kept) = place {
        if serves(kept, kind, scene) {
            if !paint_kept(brush, kept, room, kind, scene, contents, target) {
                *place = None;
            }
            return;
        }
    }
    paint_whole(brush, scene, contents, target);
    *place = None;
}

/// Paints a frame over a kept picture of its size, and copies that into `target`. Returns whether all of the frame is kept now and it
/// paid.
fn paint_kept<B: Brush>(
    brush: &mut B,
    kept: &mut Kept,
    room: usize,
    kind: &JobKind,
    scene: &Scene,
    contents: &Contents,
    target: &mut Image,
) -> bool
    requires kept { IsKept kept.old }
    requires kept_size { kept.old.scene.size ≡ scene.now.size }
    requires size { target.old.size ≡ scene.now.size }
    requires pixels { pixel_bytes target.old.format ≡ 4 }
    requires fits { Fits scene.now contents.now }
    ensures picture { target.new ≡ picture scene.now contents.now target.old.format }
    ensures painted { IsRise (B.count brush.old) (B.count brush.new)
        (sum (map area (areas_of kept.old.scene kept.old.contents scene.now contents.now))) }
    ensures whole { IsTrue result
        → kept.new ≡ record { kind = kind.now; scene = scene.now; contents = contents.now; picture = target.new } }
{
    let whole = paint_over(brush, kept, room, kind, scene, contents);
    copy_bytes(&kept.picture, target);
    whole && same_format(kept.picture.format(), target.format())
}

/// Paints a frame over a kept picture of its size, and keeps its scene and its images with it. Returns whether all of it is kept: not
/// where the brush was asked for more pixels than the picture has, where the frame is not worth keeping in so much `room`, or where memory
/// was refused.
fn paint_over<B: Brush>(
    brush: &mut B,
    kept: &mut Kept,
    room: usize,
    kind: &JobKind,
    scene: &Scene,
    contents: &Contents,
) -> bool
    requires kept { IsKept kept.old }
    requires size { kept.old.scene.size ≡ scene.now.size }
    requires fits { Fits scene.now contents.now }
    ensures picture { kept.new.picture ≡ picture scene.now contents.now kept.old.picture.format }
    ensures painted { IsRise (B.count brush.old) (B.count brush.new)
        (sum (map area (areas_of kept.old.scene kept.old.contents scene.now contents.now))) }
    ensures whole { IsTrue result
        → kept.new ≡ record { kind = kind.now; scene = scene.now; contents = contents.now; picture = kept.new.picture } }
{
    let mut compared = Compared::new();
    let paid = paint_changes(brush, &mut compared, kept, scene, contents);
    kept.kind = *kind;
    kept.scene.copy_from(scene);
    if !paid || !is_worth_keeping(room, scene, contents, &kept.picture) {
        return false;
    }
    let copied = kept.contents.copy_from(contents, compared.same.as_slice());
    copied.is_ok()
}

/// Asks `brush` for what changed in a kept picture, and notes which images were compared. Returns whether that was no more than the
/// whole has.
fn paint_changes<B: Brush>(
    brush: &mut B,
    compared: &mut Compared,
    kept: &mut Kept,
    scene: &Scene,
    contents: &Contents,
) -> bool
    requires kept { IsKept kept.old }
    requires compared { AreCompared kept.old.contents contents.now compared.old }
    requires size { kept.old.scene.size ≡ scene.now.size }
    requires fits { Fits scene.now contents.now }
    ensures kept { kept.new ≡ record kept.old { picture = picture scene.now contents.now kept.old.picture.format } }
    ensures compared { AreCompared kept.old.contents contents.now compared.new }
    ensures painted { IsRise (B.count brush.old) (B.count brush.new)
        (sum (map area (areas_of kept.old.scene kept.old.contents scene.now contents.now))) }
{
    let list = areas_by(compared, &kept.scene, &kept.contents, scene, contents);
    paint_areas(brush, list.as_slice(), scene, contents, &mut kept.picture);
    pixels_of(list.as_slice()) <= pixels_of(&[whole_of(scene)])
}

/// Returns how many pixels some areas have together.
fn pixels_of(list: &[Rect]) -> u64 {
    let mut pixels = 0u64;
    for area in list {
        pixels = pixels.saturating_add(u64::from(area.w) * u64::from(area.h));
    }
    pixels
}

/// Copies the bytes of `picture` into `target`, which has as many.
fn copy_bytes(picture: &Image, target: &mut Image)
    requires size { target.old.size ≡ picture.now.size }
    requires pixels { pixel_bytes target.old.format ≡ 4 }
    requires four { pixel_bytes picture.now.format ≡ 4 }
    ensures { target.new ≡ record target.old { bytes = picture.now.bytes } }
{
    target.bytes_mut().copy_from_slice(picture.bytes());
}

/// Asks `brush` for each of some areas, in the order of `list`.
fn paint_areas<B: Brush>(
    brush: &mut B,
    list: &[Rect],
    scene: &Scene,
    contents: &Contents,
    target: &mut Image,
)
    requires size { target.old.size ≡ scene.now.size }
    requires pixels { pixel_bytes target.old.format ≡ 4 }
    requires fits { Fits scene.now contents.now }
    ensures picture { target.new ≡ over_picture scene.now contents.now list.now target.old }
    ensures painted { IsRise (B.count brush.old) (B.count brush.new) (sum (map area list.now)) }
{
    // What follows from how many bytes an image has is known once they were looked at.
    let _bytes = target.bytes();
    for i in 0..list.len() {
        brush.part(scene, contents, list[i], target);
    }
}

/// Keeps a frame that was painted in `place`, where that is empty and it pays, and returns how long the place rests now. It was lost if
/// it `was_kept` before and is empty now.
fn keep(
    place: &mut Option<Kept>,
    was_kept: bool,
    rest: Rest,
    room: usize,
    kind: &JobKind,
    scene: &Scene,
    contents: &Contents,
    target: &Image,
) -> Rest
    requires { IfSome place.old
        (λ k. k ≡ record { kind = kind.now; scene = scene.now; contents = contents.now; picture = target.now }) }
    ensures { IfSome place.new
        (λ k. k ≡ record { kind = kind.now; scene = scene.now; contents = contents.now; picture = target.now }) }
{
    if place.is_some() {
        return Rest::none();
    }
    if was_kept {
        return rest.lost();
    }
    if let Some(left) = rest.waited() {
        return left;
    }
    if !is_worth_keeping(room, scene, contents, target) {
        return rest;
    }
    *place = kept_of(kind, scene, contents, target);
    if place.is_some() { rest } else { rest.lost() }
}

/// Returns whether a frame has at most `room` bytes of images and picture, and costs more to paint anew than to keep.
fn is_worth_keeping(room: usize, scene: &Scene, contents: &Contents, picture: &Image) -> bool {
    contents.bytes().saturating_add(picture.bytes().len()) <= room && pays(scene, contents)
}

/// Returns copies of a frame that was painted, or nothing where memory is refused.
fn kept_of(kind: &JobKind, scene: &Scene, contents: &Contents, target: &Image) -> Option<Kept>
    ensures { IfSome result
        (λ k. k ≡ record { kind = kind.now; scene = scene.now; contents = contents.now; picture = target.now }) }
{
    let mut images = Contents::new();
    if images.copy_from(contents, &[]).is_err() {
        return None;
    }
    let Ok(picture) = target.copy() else {
        return None;
    };
    Some(Kept {
        kind: *kind,
        scene: scene.copy(),
        contents: images,
        picture,
    })
}
