//! The lines of a text.
ghost use Rattle.std.specs.Prelude.{◌≡◌, ◌≢◌, [], ◌∷◌, drop, MatchOption};
ghost use Rattle.script_rules.specs.Lines as spec;
ghost use Rattle.script_rules.specs.Reasons as reason;

use crate::words::Words;
use memchr::memchr;

/// The lines of a text that were not read yet, without their LF. The last line may lack it.
#[derive(Clone, Copy)]
pub struct Lines<'a> {
    pub rest: &'a [u8],
}

impl<'a> Lines<'a> {
    ghost use Rattle.script_words.specs.Cursors.{lines_left};

    /// The lines of a text.
    pub fn of(text: &'a [u8]) -> Lines<'a>
        ensures { lines_left result ≡ spec.lines_of text.now }
    {
        Lines { rest: text }
    }

    /// The next line, where there is one.
    pub fn next(&mut self) -> Option<&'a [u8]>
        ensures line { MatchOption result (lines_left self.old ≡ []) (λ line. lines_left self.old ≡ line.now ∷ lines_left self.new) }
        ensures rest { lines_left self.new ≡ drop 1 (lines_left self.old) }
    {
        let text = self.rest;
        if text.is_empty() {
            return None;
        }
        let (line, behind) = first_line(text);
        self.rest = behind;
        Some(line)
    }
}

/// The first line of a text that is not empty, and the text behind it.
fn first_line(text: &[u8]) -> (&[u8], &[u8])
    requires { text.now ≢ [] }
    ensures { spec.lines_of text.now ≡ result.0.now ∷ spec.lines_of result.1.now }
{
    match memchr(b'\n', text) {
        Some(i) => (&text[..i], &text[i + 1..]),
        None => (text, &[]),
    }
}

/// Whether a byte of a line is neither printable ASCII nor LF.
pub fn has_foreign_byte(line: &[u8]) -> bool
    ensures { result ≡ reason.has_foreign_byte line.now }
{
    // no early return, so that many bytes are tested at once
    let mut foreign = false;
    for byte in line {
        foreign |= is_foreign(*byte);
    }
    foreign
}

/// Whether a byte may not stand in a line.
#[inline]
fn is_foreign(byte: u8) -> bool
    ensures { result ≡ spec.is_foreign_byte byte }
{
    byte < b' ' || b'~' < byte
}

/// Whether a line is empty, of spaces alone, or begins with `#`.
pub fn is_skipped(line: &[u8]) -> bool
    ensures { result ≡ spec.is_skipped line.now }
{
    begins_with_hash(line) || Words::of(line).is_empty()
}

fn begins_with_hash(line: &[u8]) -> bool
    ensures { result ≡ spec.begins_with_hash line.now }
{
    match line {
        [first, ..] => *first == b'#',
        [] => false,
    }
}
