//! Cuts a script into its lines. Depends on `lexer`.
ghost use Rattle.std.specs.Prelude.{◌≡◌, ◌<◌, ◌==◌, ◌++◌, ◌∷◌, length};
ghost use Rattle.tsdb_script.specs.Reading.{content_of, is_skipped, lines_of, without_last};
ghost use Rattle.tsdb_script.specs.Tokens.{starts};

use crate::lexer::behind_blanks;

/// The first line with the line feed that ends it, which the last may lack, and what is behind it.
pub fn first_line(text: &[u8]) -> (&[u8], &[u8])
    requires { 0 < length text.now }
    ensures whole { text.now ≡ result.0.now ++ result.1.now }
    ensures some { 0 < length result.0.now }
    ensures first { lines_of text.now ≡ result.0.now ∷ lines_of result.1.now }
{
    for (at, byte) in text.iter().enumerate() {
        if *byte == b'\n' {
            return text.split_at(at + 1);
        }
    }
    text.split_at(text.len())
}

/// The line without its line feed, and then without one carriage return.
pub fn content(line: &[u8]) -> &[u8]
    ensures { result.now ≡ content_of line.now }
{
    without_last(b'\r', without_last(b'\n', line))
}

/// Whether the line is a comment or blank.
pub fn is_skipped(line: &[u8]) -> bool
    ensures { result ≡ is_skipped line.now }
{
    begins_with(line, b'#') || behind_blanks(content(line)).is_empty()
}

/// Whether there is a first byte, and it is this one.
pub fn begins_with(bytes: &[u8], first: u8) -> bool
    ensures { result ≡ starts (λ b. b == first) bytes.now }
{
    bytes.first() == Some(&first)
}

/// The bytes without the last one, where that is this one.
fn without_last(last: u8, bytes: &[u8]) -> &[u8]
    ensures { result.now ≡ without_last last bytes.now }
{
    let Some((byte, front)) = bytes.split_last() else {
        return bytes;
    };
    if *byte == last { front } else { bytes }
}
