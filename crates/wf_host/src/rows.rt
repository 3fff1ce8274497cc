//! Rows of bytes that stand a stride apart.

ghost use Rattle.std.specs.Prelude.{◌≡◌, ◌≤◌, IsTrue, length};
ghost use Rattle.wf_host.specs.Rows.{copied, stands};

use crate::order::{Order, put_row};

/// Tells whether `count` rows of `row` bytes, at least one, stand in `room` bytes, each `stride` bytes after the one before, and no row
/// reaches into the next.
pub fn stands(room: usize, stride: usize, row: usize, count: usize) -> bool
    requires { 1 ≤ count }
    ensures { result ≡ stands room stride row count }
{
    if row > stride {
        return false;
    }
    match stride.checked_mul(count - 1) {
        Some(last) => last <= room && row <= room - last,
        None => false,
    }
}

/// Copies `count` rows of `row` bytes from `bytes`, where they stand `from` bytes apart, into `out`, where they stand `to` bytes
/// apart, in an `order` of their bytes.
pub fn copy_rows(
    out: &mut [u8],
    to: usize,
    bytes: &[u8],
    from: usize,
    row: usize,
    count: usize,
    order: Order,
)
    requires out { IsTrue (stands (length out.old) to row count) }
    requires bytes { IsTrue (stands (length bytes.now) from row count) }
    ensures copied { out.new ≡ copied order to from row count bytes.now out.old }
    ensures size { length out.new ≡ length out.old }
{
    for y in 0..count {
        let at = y * from;
        put_row(out, y * to, &bytes[at..at + row], order);
    }
}
