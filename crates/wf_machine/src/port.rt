//! The images that are kept for the frames of ports.

ghost use Rattle.std.specs.Prelude.{◌≡◌, ◌<◌, ◌≤◌, ◌+◌, length, map, slice_get, IsSomeAnd, IsTrue, IfOk, IfSome, None, Some};
ghost use Rattle.std.specs.List.{list_all};
ghost use Rattle.wf_pixel.specs.Choice.{has_sides};
ghost use Rattle.wf_model.specs.State.{mode_size};
ghost use Rattle.wf_machine.specs.declared.frame.Frame.{Frame};
ghost use Rattle.wf_machine.specs.Ports.{HoldsBut, IsFrameImage, sizes_of};
ghost use Rattle.wf_machine.specs.Fitting.{AwaitsImage, IsOfMode, PortsFit};

use arrayvec::ArrayVec;
use std::alloc::Global;
use wf_calls::JobKind;
use wf_image::Image;
use wf_pixel::{Format, Size};
use wf_words::NoMemory;

/// The images of a port: for each of its modes one for its frames, which is away while a frame of that mode runs.
#[derive(Drop)]
pub(crate) struct Port {
    pub modes: ArrayVec<Size, 4>,
    pub images: Vec<Option<Image>>,
}

impl Port {
    /// The images of a port with these modes, which are all there.
    pub(crate) fn new(alloc: Global, sizes: &[Size]) -> Result<Port, NoMemory>
        requires most { length sizes.now ≤ 4 }
        requires sides { IsTrue (list_all has_sides sizes.now) }
        ensures modes { IfOk result (λ port. port.modes.items ≡ sizes.now) }
        ensures images { IfOk result (λ port. HoldsBut 0 port.modes.items port.images.items) }
    {
        let mut modes: ArrayVec<Size, 4> = ArrayVec::new();
        let mut images = Vec::with_capacity(alloc, sizes.len())?;
        for size in sizes {
            images.push_reserved(Some(Image::new(alloc, *size, Format::Rgba8Pre)?));
            modes.push(*size);
        }
        Ok(Port { modes, images })
    }

    /// Takes the image for a frame of a mode, which is there.
    fn take_image(&mut self, mode: u32) -> Image
        requires some { 1 ≤ mode }
        requires within { mode ≤ length self.old.modes.items }
        requires there { HoldsBut 0 self.old.modes.items self.old.images.items }
        ensures shape { IsFrameImage (mode_size mode self.old.modes.items) (Some result) }
        ensures modes { self.new.modes ≡ self.old.modes }
        ensures away { HoldsBut mode self.new.modes.items self.new.images.items }
    {
        match self.images[mode as usize - 1].take() {
            Some(image) => image,
            None => unreachable!(),
        }
    }

    /// Puts the image of a frame of a mode back.
    fn put_image(&mut self, mode: u32, image: Image)
        requires some { 1 ≤ mode }
        requires within { mode ≤ length self.old.modes.items }
        requires away { HoldsBut mode self.old.modes.items self.old.images.items }
        requires shape { IsFrameImage (mode_size mode self.old.modes.items) (Some image) }
        ensures modes { self.new.modes ≡ self.old.modes }
        ensures there { HoldsBut 0 self.new.modes.items self.new.images.items }
    {
        self.images[mode as usize - 1] = Some(image);
    }
}

/// Takes the image for a frame of a port's mode, while no frame runs.
pub(crate) fn take_image(ports: &mut Vec<Port>, place: usize, mode: u32) -> Image
    requires within { place < length ports.old.items }
    requires mode { IsSomeAnd (slice_get (map sizes_of ports.old.items) place) (λ modes. (1 ≤ mode) × (mode ≤ length modes)) }
    requires fit { PortsFit None 1 ports.old.items }
    ensures shape { IfSome (slice_get (map sizes_of ports.old.items) place) (λ modes. IsFrameImage (mode_size mode modes) (Some result)) }
    ensures modes { map sizes_of ports.new.items ≡ map sizes_of ports.old.items }
    ensures away { (frame : Frame) → frame.kind ≡ JobKind.Port (place + 1) → frame.mode ≡ mode → PortsFit (Some frame) 1 ports.new.items }
{
    ports[place].take_image(mode)
}

/// Puts the image of a port's frame back, while it runs.
pub(crate) fn put_image(ports: &mut Vec<Port>, place: usize, mode: u32, image: Image)
    requires within { place < length ports.old.items }
    requires away { AwaitsImage place mode ports.old.items }
    requires shape { IfSome (slice_get (map sizes_of ports.old.items) place)
        (λ modes. IsOfMode mode image.size modes × (image.format ≡ Format.Rgba8Pre)) }
    ensures modes { map sizes_of ports.new.items ≡ map sizes_of ports.old.items }
    ensures there { PortsFit None 1 ports.new.items }
{
    ports[place].put_image(mode, image);
}
