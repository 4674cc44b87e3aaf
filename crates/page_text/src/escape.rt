//! Texts as they stand in a page of HTML.

ghost use Rattle.std.specs.Prelude.{◌≡◌, ◌<◌, ◌++◌, ℕ, List, OnOk, OnErr, true, length};
ghost use Rattle.std.specs.Str.{is_utf8};
ghost use Rattle.page_text.specs.Escapes as spec;
ghost use Rattle.page_text.specs.Harmless.{is_harmless};

use memory::{Supply, extend};
use std::alloc::AllocError;

/// Whether HTML forbids the character of this byte: a control character that is no tab and no line feed.
fn is_forbidden(byte: u8) -> bool
    ensures { result ≡ spec.is_forbidden byte }
{
    byte < 9 || (byte > 10 && byte < 32) || byte == 127
}

/// Adds a byte of a text, of which it is known whether it is UTF-8.
fn add_byte<M: Supply>(
    supply: &mut M,
    page: &mut Vec<u8>,
    utf8: bool,
    byte: u8,
) -> Result<(), AllocError>
    ensures added { OnOk result (page.new.items ≡ page.old.items ++ spec.escaped_byte utf8 byte) }
    ensures unrefused { OnOk result (M.refused supply.new ≡ M.refused supply.old) }
    ensures taken { OnErr result (M.refused supply.new ≡ true) }
{
    match byte {
        b'<' => extend(supply, page, b"&lt;"),
        b'>' => extend(supply, page, b"&gt;"),
        b'&' => extend(supply, page, b"&amp;"),
        b'"' => extend(supply, page, b"&quot;"),
        _ if is_forbidden(byte) || (!utf8 && byte > 127) => extend(supply, page, b"\xEF\xBF\xBD"),
        _ => extend(supply, page, &[byte]),
    }
}

/// Whether a text is UTF-8.
fn is_valid(text: &[u8]) -> bool
    ensures { result ≡ is_utf8 text.now }
{
    match str::from_utf8(text) {
        Ok(_) => true,
        Err(_) => false,
    }
}

/// Adds a text to a page: `<`, `>`, `&` and `"` as the entities that stand for them; a control character that HTML forbids, and
/// each byte above 127 of a text that is not UTF-8, as the replacement character.
pub fn add_escaped<M: Supply>(
    supply: &mut M,
    page: &mut Vec<u8>,
    text: &[u8],
) -> Result<(), AllocError>
    ensures added { OnOk result (page.new.items ≡ page.old.items ++ spec.escaped text.now) }
    ensures asked { OnErr result (0 < length text.now) }
    ensures unrefused { OnOk result (M.refused supply.new ≡ M.refused supply.old) }
    ensures taken { OnErr result (M.refused supply.new ≡ true) }
{
    let utf8 = is_valid(text);
    for byte in text {
        add_byte(supply, page, utf8, *byte)?;
    }
    Ok(())
}

/// The law of every text that was added so: it has no `<`, no `>` and no `"`, and an ampersand only where one of the entities
/// begins that stand for a character.
pub fn is_always_harmless()
    ensures { (text : List ℕ) → is_harmless (spec.escaped text) ≡ true }
{}
