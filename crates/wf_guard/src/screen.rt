//! What a port shows.

use wf_image::Image;

/// What a port shows: an image with room for its picture, and whether that was put. Before it, the image is what the machine had.
#[derive(Drop)]
pub struct Screen {
    pub image: Image,
    pub is_put: bool,
}
