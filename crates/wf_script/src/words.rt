//! Lines, and the words of a line.

ghost use Rattle.std.specs.Prelude.{◌≡◌, ◌<◌, ◌≤◌, ◌==◌, ◌+◌, [], ◌∷◌, length, position, take, drop, MatchOption, IfSome};
ghost use Rattle.std.specs.List.{list_all, before_first, after_first};
ghost use Rattle.wf_script.specs.Words.{is_allowed, is_blank, lines_of, without_comment, without_return, words_in};

/// Where the mark stands first.
fn place_of(text: &[u8], mark: u8) -> Option<usize>
    ensures { result ≡ position (λ b. b == mark) text.now }
{
    text.iter().position(|byte| *byte == mark)
}

/// What stands before a place and behind it. What is at the place is dropped.
fn cut_out(text: &[u8], place: usize) -> (&[u8], &[u8])
    requires { place ≤ length text.now }
    ensures front { result.0.now ≡ take place text.now }
    ensures behind { result.1.now ≡ drop (place + 1) text.now }
{
    let (front, behind) = text.split_at(place);
    (front, behind.get(1..).unwrap_or(behind))
}

/// What stands before the first mark and behind it.
pub(crate) fn cut_at(text: &[u8], mark: u8) -> (&[u8], &[u8])
    ensures front { result.0.now ≡ before_first (λ b. b == mark) text.now }
    ensures behind { result.1.now ≡ after_first (λ b. b == mark) text.now }
{
    let place = place_of(text, mark).unwrap_or(text.len());
    cut_out(text, place)
}

/// Where the first blank stands.
fn blank_in(text: &[u8]) -> Option<usize>
    ensures { result ≡ position is_blank text.now }
{
    text.iter().position(|byte| is_blank(*byte))
}

/// What stands before the first blank and behind it.
fn cut_at_blank(text: &[u8]) -> (&[u8], &[u8])
    ensures front { result.0.now ≡ before_first is_blank text.now }
    ensures behind { result.1.now ≡ after_first is_blank text.now }
{
    let place = blank_in(text).unwrap_or(text.len());
    cut_out(text, place)
}

/// The first line of a text and what stands behind it, or none where there is no line.
pub(crate) fn next_line(text: &[u8]) -> Option<(&[u8], &[u8])>
    ensures lines { MatchOption result (lines_of text.now ≡ []) (λ x. lines_of text.now ≡ x.0.now ∷ lines_of x.1.now) }
    ensures shorter { IfSome result (λ x. length x.1.now < length text.now) }
{
    if text.is_empty() {
        None
    } else {
        Some(cut_at(text, b'\n'))
    }
}

/// What a line says: without the carriage return that ends it.
pub(crate) fn without_return(line: &[u8]) -> &[u8]
    ensures { result.now ≡ without_return line.now }
{
    line.strip_suffix(b"\r").unwrap_or(line)
}

/// Whether a byte may stand in a line.
fn is_allowed(byte: u8) -> bool
    ensures { result ≡ is_allowed byte }
{
    byte == b'\t' || (b' ' <= byte && byte <= b'~')
}

/// Whether each byte may stand in a line. It looks at all of them, many at a time, where a search would stop at the first that may not.
pub(crate) fn are_allowed(line: &[u8]) -> bool
    ensures { result ≡ list_all is_allowed line.now }
{
    let mut allowed = true;
    for byte in line {
        allowed = allowed & is_allowed(*byte);
    }
    allowed
}

/// A line without its comment.
pub(crate) fn without_comment(line: &[u8]) -> &[u8]
    ensures { result.now ≡ without_comment line.now }
{
    cut_at(line, b'#').0
}

/// Whether words stand apart at a byte.
fn is_blank(byte: u8) -> bool
    ensures { result ≡ is_blank byte }
{
    byte == b'\t' || byte == b' '
}

/// The first word of a text and what stands behind it, or none where there is no word.
pub(crate) fn next_word(text: &[u8]) -> Option<(&[u8], &[u8])>
    ensures words { MatchOption result (words_in text.now ≡ []) (λ x. words_in text.now ≡ x.0.now ∷ words_in x.1.now) }
    ensures shorter { IfSome result (λ x. length x.1.now < length text.now) }
{
    let mut rest = text;
    while !rest.is_empty() {
        let (word, behind) = cut_at_blank(rest);
        if !word.is_empty() {
            return Some((word, behind));
        }
        rest = behind;
    }
    None
}
