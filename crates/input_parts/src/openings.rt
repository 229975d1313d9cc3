//! The first line of bytes that need not be text.
ghost use Rattle.std.specs.Prelude.{◌≡◌};
ghost use Rattle.input_parts.specs.Openings as spec;

use memchr::memchr;

/// The first line of some bytes, and what stands behind its LF.
pub fn first_line(bytes: &[u8]) -> (&[u8], &[u8])
    ensures line { result.0.now ≡ spec.first_line bytes.now }
    ensures behind { result.1.now ≡ spec.behind_line bytes.now }
{
    match memchr(b'\n', bytes) {
        Some(i) => (&bytes[..i], &bytes[i + 1..]),
        None => (bytes, &[]),
    }
}
