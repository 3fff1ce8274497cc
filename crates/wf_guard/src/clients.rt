//! The clients of one core, by their numbers, and how many streams and bytes each may have.

use wf_pixel::MOST_SIDE;

/// The window manager, who may make every call.
pub const MANAGER: u8 = 0;

/// The output, who alone ticks. The clients from 1 up to it are apps.
pub const OUTPUT: u8 = 8;

/// How many apps there are at most.
pub const APPS: usize = 7;

/// The broker, who joins the clients' messages into one stream and says who is gone.
pub const BROKER: u8 = 255;

/// How many clients may hold a write buffer or wait for a tick: the window manager, the apps and the output.
pub const CLIENTS: usize = 9;

/// How many live streams an app may have. With the window manager's and the screens of four ports they fit into all that there may be.
pub const APP_STREAMS: usize = 4;

/// How many live streams the window manager may have.
pub const MANAGER_STREAMS: usize = 32;

/// How many bytes the buffers of an app's live streams may take: those of two images of the highest sides, 4 bytes a pixel. With the window
/// manager's and the screens of four ports they fit into all that there may be.
pub const APP_BYTES: u64 = 8 * MOST_SIDE as u64 * MOST_SIDE as u64;

/// How many bytes those of the window manager's live streams may take: of six such images.
pub const MANAGER_BYTES: u64 = 24 * MOST_SIDE as u64 * MOST_SIDE as u64;
