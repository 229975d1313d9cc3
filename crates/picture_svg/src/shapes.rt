//! Shapes, as SVG writes them. All coordinates are whole numbers.
ghost use Rattle.std.specs.Prelude.{◌≡◌, ◌++◌, ◌∷◌, [], OnOk, decimal};
ghost use Rattle.picture_svg.specs.Shapes.{escaped_byte, escaped, text_at, some_letters, letters_at, place_of, some_path, path_of, move_to, along, down_to};

use dpc_lists::faults::NoMemory;
use itoa::Buffer;
use line_writer::{end_line, put_first};

/// A number.
pub(crate) fn put_decimal(text: &mut Vec<u8>, number: u128) -> Result<(), NoMemory>
    ensures { OnOk result (text.new.items ≡ text.old.items ++ decimal number) }
{
    let mut buffer = Buffer::new();
    put_first(text, buffer.format(number).as_bytes())
}

/// A byte of a text.
fn put_escaped_byte(text: &mut Vec<u8>, byte: u8) -> Result<(), NoMemory>
    ensures { OnOk result (text.new.items ≡ text.old.items ++ escaped_byte byte) }
{
    match byte {
        b'&' => put_first(text, b"&amp;"),
        b'<' => put_first(text, b"&lt;"),
        b'>' => put_first(text, b"&gt;"),
        _ => {
            text.push(byte)?;
            Ok(())
        }
    }
}

/// A text.
pub(crate) fn put_escaped(text: &mut Vec<u8>, word: &[u8]) -> Result<(), NoMemory>
    ensures { OnOk result (text.new.items ≡ text.old.items ++ escaped word.now) }
{
    for byte in word {
        put_escaped_byte(text, *byte)?;
    }
    Ok(())
}

/// A text whose left end stands at (x, y).
#[tactic(auto, unfolding(crate::specs::Shapes::text_at))]
pub(crate) fn put_text(text: &mut Vec<u8>, x: u128, y: u128, word: &[u8]) -> Result<(), NoMemory>
    ensures { OnOk result (text.new.items ≡ text.old.items ++ text_at x y word.now) }
{
    put_first(text, b"<text x='")?;
    put_decimal(text, x)?;
    put_first(text, b"' y='")?;
    put_decimal(text, y)?;
    put_first(text, b"'>")?;
    put_escaped(text, word)?;
    put_first(text, b"</text>")?;
    end_line(text)
}

/// Letters at places of their own.
#[tactic(auto, unfolding(crate::specs::Shapes::some_letters))]
fn put_some_letters(
    text: &mut Vec<u8>,
    places: &[u8],
    y: u128,
    letters: &[u8],
) -> Result<(), NoMemory>
    ensures { OnOk result (text.new.items ≡ text.old.items ++ some_letters places.now y letters.now) }
{
    put_first(text, b"<text x='")?;
    put_first(text, places)?;
    put_first(text, b"' y='")?;
    put_decimal(text, y)?;
    put_first(text, b"'>")?;
    put_first(text, letters)?;
    put_first(text, b"</text>")?;
    end_line(text)
}

/// Letters at places of their own, where there are any.
#[tactic(auto, unfolding(crate::specs::Shapes::letters_at))]
pub(crate) fn put_letters(
    text: &mut Vec<u8>,
    places: &[u8],
    y: u128,
    letters: &[u8],
) -> Result<(), NoMemory>
    ensures { OnOk result (text.new.items ≡ text.old.items ++ letters_at places.now y letters.now) }
{
    if letters.is_empty() {
        return Ok(());
    }
    put_some_letters(text, places, y, letters)?;
    Ok(())
}

/// The place of a letter.
pub(crate) fn put_place(places: &mut Vec<u8>, x: u128) -> Result<(), NoMemory>
    ensures { OnOk result (places.new.items ≡ places.old.items ++ place_of x) }
{
    put_decimal(places, x)?;
    put_first(places, b" ")
}

/// A path of these moves, drawn as its class says.
#[tactic(auto, unfolding(crate::specs::Shapes::some_path))]
fn put_some_path(text: &mut Vec<u8>, class: &[u8], moves: &[u8]) -> Result<(), NoMemory>
    ensures { OnOk result (text.new.items ≡ text.old.items ++ some_path class.now moves.now) }
{
    put_first(text, b"<path class='")?;
    put_first(text, class)?;
    put_first(text, b"' d='")?;
    put_first(text, moves)?;
    put_first(text, b"'/>")?;
    end_line(text)
}

/// A path of these moves, where there are any.
#[tactic(auto, unfolding(crate::specs::Shapes::path_of))]
pub(crate) fn put_path(text: &mut Vec<u8>, class: &[u8], moves: &[u8]) -> Result<(), NoMemory>
    ensures { OnOk result (text.new.items ≡ text.old.items ++ path_of class.now moves.now) }
{
    if moves.is_empty() {
        return Ok(());
    }
    put_some_path(text, class, moves)?;
    Ok(())
}

/// The pen goes to (x, y).
pub(crate) fn put_move(moves: &mut Vec<u8>, x: u128, y: u128) -> Result<(), NoMemory>
    ensures { OnOk result (moves.new.items ≡ moves.old.items ++ move_to x y) }
{
    put_first(moves, b"M")?;
    put_decimal(moves, x)?;
    put_first(moves, b" ")?;
    put_decimal(moves, y)
}

/// The pen goes to the right by so much.
pub(crate) fn put_along(moves: &mut Vec<u8>, length: u128) -> Result<(), NoMemory>
    ensures { OnOk result (moves.new.items ≡ moves.old.items ++ along length) }
{
    put_first(moves, b"h")?;
    put_decimal(moves, length)
}

/// The pen goes up or down to this height.
pub(crate) fn put_down(moves: &mut Vec<u8>, y: u128) -> Result<(), NoMemory>
    ensures { OnOk result (moves.new.items ≡ moves.old.items ++ down_to y) }
{
    put_first(moves, b"V")?;
    put_decimal(moves, y)
}
