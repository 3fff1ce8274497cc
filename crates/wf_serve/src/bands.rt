//! The rows in which two pictures of the same sides differ.

ghost use Rattle.std.specs.Prelude.{◌≡◌, ◌+◌, ◌*◌, ◌≤◌, length};
ghost use Rattle.wf_serve.specs.Bands.{band_in, band_of, end_changed, first_changed, same_row};

/// Rows that follow one another: the number of the first, and how many there are.
#[derive(Clone, Copy, Debug)]
pub struct Band {
    pub first: u16,
    pub count: u16,
}

/// Tells whether a row of `row` bytes, the one of number `y`, is the same in both pictures.
fn same_row(last: &[u8], next: &[u8], row: usize, y: usize) -> bool
    requires last { y * row + row ≤ length last.now }
    requires next { y * row + row ≤ length next.now }
    ensures { result ≡ same_row row y last.now next.now }
{
    let at = y * row;
    last[at..at + row] == next[at..at + row]
}

/// Returns the number of the first of `count` rows that differs, or `count`.
fn first_changed(last: &[u8], next: &[u8], row: usize, count: usize) -> usize
    requires last { count * row ≤ length last.now }
    requires next { count * row ≤ length next.now }
    ensures first { result ≡ first_changed row count 0 last.now next.now }
    ensures few { result ≤ count }
{
    for y in 0..count {
        if !same_row(last, next, row, y) {
            return y;
        }
    }
    count
}

/// Returns the number after that of the last of `count` rows that differs, or 0.
fn end_changed(last: &[u8], next: &[u8], row: usize, count: usize) -> usize
    requires last { count * row ≤ length last.now }
    requires next { count * row ≤ length next.now }
    ensures end { result ≡ end_changed row count last.now next.now }
    ensures few { result ≤ count }
{
    for n in 0..count {
        if !same_row(last, next, row, count - n - 1) {
            return count - n;
        }
    }
    0
}

/// Returns the rows from the first of `count` that differs to the last.
pub(crate) fn band_of(last: &[u8], next: &[u8], row: usize, count: usize) -> Band
    requires few { count ≤ 65535 }
    requires last { count * row ≤ length last.now }
    requires next { count * row ≤ length next.now }
    ensures band { result ≡ band_of row count last.now next.now }
    ensures within { result.first + result.count ≤ count }
{
    let first = first_changed(last, next, row, count);
    let end = end_changed(last, next, row, count);
    Band {
        first: first as u16,
        count: end.saturating_sub(first) as u16,
    }
}

/// Returns the bytes of a `band` of rows of `row` bytes.
pub(crate) fn rows_of<'a>(bytes: &'a [u8], row: usize, band: &Band) -> &'a [u8]
    requires { (band.now.first + band.now.count) * row ≤ length bytes.now }
    ensures { result.now ≡ band_in row band.now bytes.now }
{
    let at = usize::from(band.first) * row;
    &bytes[at..at + usize::from(band.count) * row]
}
