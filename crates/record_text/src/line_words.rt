//! The words of a line of a script.

ghost use Rattle.std.specs.Prelude.{◌≡◌};
ghost use Rattle.record_text.specs.LineWords as spec;

use step_records::script_lines::bytes_before;

/// What stands before the first blank.
pub fn first_word(line: &[u8]) -> &[u8]
    ensures { result.now ≡ spec.first_word line.now }
{
    &line[..bytes_before(line, b' ')]
}

/// What stands behind the first blank; nothing where there is none.
pub fn other_words(line: &[u8]) -> &[u8]
    ensures { result.now ≡ spec.other_words line.now }
{
    let count = bytes_before(line, b' ');
    if count < line.len() {
        &line[count + 1..]
    } else {
        &[]
    }
}

/// Whether this is the first word of a line.
fn begins(line: &[u8], word: &[u8]) -> bool
    ensures { result ≡ spec.begins line.now word.now }
{
    first_word(line) == word
}

/// A line without the CPU that it names.
pub fn without_cpu(line: &[u8]) -> &[u8]
    ensures { result.now ≡ spec.without_cpu line.now }
{
    if begins(line, b"cpu") {
        other_words(other_words(line))
    } else {
        line
    }
}
