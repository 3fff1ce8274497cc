//! A framebuffer: a file whose bytes are those of one picture, and each picture is written from its first byte on.

use std::fs::File;
use std::io;
use std::io::Write;
use std::os::unix::fs::FileExt;

/// A file of one picture, and the byte at which the next one is written.
#[derive(Drop)]
pub(crate) struct Device {
    file: File,
    size: u64,
    at: u64,
}

impl Device {
    /// Makes a `file` the place of pictures of `size` bytes each.
    pub(crate) fn new(file: File, size: u64) -> Device {
        Device { file, size, at: 0 }
    }
}

impl Write for Device {
    fn write(&mut self, buf: &[u8]) -> io::Result<usize> {
        let left = self.size.saturating_sub(self.at);
        let count = left.min(buf.len() as u64) as usize;
        let written = self.file.write_at(&buf[..count], self.at)?;
        self.at = self.at.saturating_add(written as u64);
        if self.at >= self.size {
            self.at = 0;
        }
        Ok(written)
    }

    fn flush(&mut self) -> io::Result<()> {
        Ok(())
    }
}
