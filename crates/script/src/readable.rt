//! What a line is before it is taken.

ghost use Rattle.std.specs.Prelude.{◌≡◌, ◌||◌, ◌∷◌, ℕ, List, length, nat_lt, not, true};
ghost use Rattle.std.specs.Str.{is_utf8};
ghost use Rattle.script.specs.Parsing as spec;

use std::str::from_utf8;

/// The most bytes that a line has, without its line feed.
const LINE_BYTES: usize = 1024;

/// Neither empty nor a comment.
pub fn has_words(line: &[u8]) -> bool
    ensures { result ≡ spec.has_words line.now }
{
    match line {
        [] => false,
        [first, ..] => *first != b'#',
    }
}

/// Whether all bytes are of ASCII: no test of one ends the search, so that many are looked at in one step.
pub fn is_plain(text: &[u8]) -> bool
    ensures { result ≡ spec.is_ascii text.now }
{
    let mut most = 0;
    for byte in text {
        most = most.max(*byte);
    }
    most < 128
}

/// Whether a line is UTF-8; `plain`: it is known to be of ASCII.
fn is_text(plain: bool, line: &[u8]) -> bool
    requires { plain ≡ true → spec.is_ascii line.now ≡ true }
    ensures { result ≡ is_utf8 line.now }
{
    if plain {
        return true;
    }
    if is_plain(line) {
        return true;
    }
    is_whole(line)
}

/// Whether a line is UTF-8, whatever its bytes: apart, as most are of ASCII.
#[cold]
#[inline(never)]
fn is_whole(line: &[u8]) -> bool
    ensures { result ≡ is_utf8 line.now }
{
    match from_utf8(line) {
        Ok(_) => true,
        Err(_) => false,
    }
}

/// Whether a line is UTF-8, and not too long; `plain`: it is known to be of ASCII.
pub fn is_readable(plain: bool, line: &[u8]) -> bool
    requires { plain ≡ true → spec.is_ascii line.now ≡ true }
    ensures { result ≡ not (nat_lt 1024 (length line.now) || not (is_utf8 line.now)) }
{
    line.len() <= LINE_BYTES && is_text(plain, line)
}
