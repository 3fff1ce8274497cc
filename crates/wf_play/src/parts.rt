//! The input of the mode `check`, cut behind the end of its script.

ghost use Rattle.std.specs.Prelude.{◌≡◌, ◌<◌, ◌≤◌, ◌==◌, ◌+◌, [], ◌∷◌, drop, length, position, take, MatchOption, IfSome};
ghost use Rattle.std.specs.List.{after_first, before_first};
ghost use Rattle.wf_script.specs.Words.{is_blank, without_comment, without_return, words_in};
ghost use Rattle.wf_play.specs.Parts.{film_part, is_end, script_length, script_part};

/// A line without the carriage return that ends it.
fn without_return(line: &[u8]) -> &[u8]
    ensures { result.now ≡ without_return line.now }
{
    line.strip_suffix(b"\r").unwrap_or(line)
}

/// What stands before a place and behind it. What is at the place is dropped.
fn cut_out(text: &[u8], place: usize) -> (&[u8], &[u8])
    requires { place ≤ length text.now }
    ensures front { result.0.now ≡ take place text.now }
    ensures behind { result.1.now ≡ drop (place + 1) text.now }
{
    let (front, behind) = text.split_at(place);
    (front, behind.get(1..).unwrap_or(behind))
}

/// Where a comment begins.
fn comment_in(line: &[u8]) -> Option<usize>
    ensures { result ≡ position (λ b. b == 35) line.now }
{
    line.iter().position(|byte| *byte == b'#')
}

/// A line without its comment.
fn without_comment(line: &[u8]) -> &[u8]
    ensures { result.now ≡ without_comment line.now }
{
    let place = comment_in(line).unwrap_or(line.len());
    cut_out(line, place).0
}

/// Where the first blank stands.
fn blank_in(text: &[u8]) -> Option<usize>
    ensures { result ≡ position is_blank text.now }
{
    text.iter().position(|byte| *byte == b'\t' || *byte == b' ')
}

/// What stands before the first blank and behind it.
fn cut_at_blank(text: &[u8]) -> (&[u8], &[u8])
    ensures front { result.0.now ≡ before_first is_blank text.now }
    ensures behind { result.1.now ≡ after_first is_blank text.now }
{
    let place = blank_in(text).unwrap_or(text.len());
    cut_out(text, place)
}

/// The first word of a text and what stands behind it, or none where there is no word.
fn next_word(text: &[u8]) -> Option<(&[u8], &[u8])>
    ensures { MatchOption result (words_in text.now ≡ []) (λ x. words_in text.now ≡ x.0.now ∷ words_in x.1.now) }
{
    let mut rest = text;
    while !rest.is_empty() {
        let (word, behind) = cut_at_blank(rest);
        if !word.is_empty() {
            return Some((word, behind));
        }
        rest = behind;
    }
    None
}

/// Whether a line's only word is `end`.
fn is_end(line: &[u8]) -> bool
    ensures { result ≡ is_end line.now }
{
    match next_word(without_comment(without_return(line))) {
        Some((word, rest)) => word == b"end".as_slice() && next_word(rest).is_none(),
        None => false,
    }
}

/// How many bytes the script part has.
fn script_length(bytes: &[u8]) -> usize
    ensures is { result ≡ script_length bytes.now }
    ensures within { result ≤ length bytes.now }
{
    let mut start = 0;
    for (place, byte) in bytes.iter().enumerate() {
        if *byte == b'\n' {
            if is_end(&bytes[start..place]) {
                return place + 1;
            }
            start = place + 1;
        }
    }
    bytes.len()
}

/// The script part of the bytes, up to the end of the first line whose only word is `end`, and the film part behind it.
pub(crate) fn parts_of(bytes: &[u8]) -> (&[u8], &[u8])
    ensures script { result.0.now ≡ script_part bytes.now }
    ensures film { result.1.now ≡ film_part bytes.now }
{
    bytes.split_at(script_length(bytes))
}
