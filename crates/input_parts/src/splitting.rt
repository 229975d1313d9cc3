//! Where the script of an input ends, and what stands behind it begins.
ghost use Rattle.std.specs.Prelude.{◌≡◌, ◌≢◌, ◌<◌, [], false, true, length, bytes_eq, MatchOption, None, Some};
ghost use Rattle.dpc_lists.specs.Lists.{list_any};
ghost use Rattle.script_rules.specs.Lines.{lines_of};
ghost use Rattle.input_parts.specs.Parts as spec;

use script_words::lines::Lines;
use script_words::words::Words;

/// Whether a word is this one.
fn is(word: &[u8], key: &[u8]) -> bool
    ensures { result ≡ bytes_eq word.now key.now }
{
    word == key
}

/// Whether a line's first word is the key.
fn begins(line: &[u8], key: &[u8]) -> bool
    ensures { result ≡ spec.begins key.now line.now }
{
    is(Words::of(line).word(0), key)
}

/// How many bytes stand in front of the first line that begins with the key, where there is one.
fn place_of_part(text: &[u8], key: &[u8]) -> Option<usize>
    requires { key.now ≢ [] }
    ensures { MatchOption result
        (list_any (spec.begins key.now) (lines_of text.now) ≡ false)
        (λ place. (list_any (spec.begins key.now) (lines_of text.now) ≡ true)
        × (place ≡ spec.bytes_before key.now (lines_of text.now)) × (place < length text.now)) }
{
    let mut lines = Lines::of(text);
    let mut place: usize = 0;
    while let Some(line) = lines.next() {
        if begins(line, key) {
            return Some(place);
        }
        place += line.len() + 1;
    }
    None
}

/// The script of an input, and what stands behind it where there is something: the text up to the first line whose first word is
/// the key, and all from that line on. It is linear in the script, and takes no memory.
#[tactic(auto, using(crate::proofs::Places::front_found, crate::proofs::Places::rest_found, crate::proofs::Places::front_alone, crate::proofs::Places::none_behind))]
pub fn split_input<'a>(text: &'a [u8], key: &[u8]) -> (&'a [u8], Option<&'a [u8]>)
    requires { key.now ≢ [] }
    ensures script { result.0.now ≡ spec.part_before key.now text.now }
    ensures behind { MatchOption result.1
        (spec.part_from key.now text.now ≡ None)
        (λ rest. spec.part_from key.now text.now ≡ Some rest.now) }
{
    match place_of_part(text, key) {
        Some(place) => (&text[..place], Some(&text[place..])),
        None => (text, None),
    }
}
