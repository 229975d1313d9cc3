//! Panels: rows of strips that lie side by side, as many as have room.
ghost use Rattle.std.specs.Prelude.{◌≡◌, ◌≤◌, ◌<◌, ◌*◌, ◌++◌, ◌∷◌, [], length, map, flat_map, take, drop, OnOk};
ghost use Rattle.dpc_lists.specs.Lists.{nth, range_with_len};
ghost use Rattle.picture_text.specs.Text.{padded, letter_at, row_text, panel_text, strips_in, panels_text};

use crate::strips::Strip;
use dpc_lists::faults::NoMemory;
use dpc_lists::lists::Name;

/// A byte of a name, or a space behind its end.
fn byte_at(label: &[u8], i: usize) -> u8
    ensures { result ≡ nth 32 label.now i }
{
    label.get(i).copied().unwrap_or(b' ')
}

/// A name in 20 columns.
fn put_padded(text: &mut Vec<u8>, label: &[u8]) -> Result<(), NoMemory>
    ensures { OnOk result (text.new.items ≡ text.old.items ++ padded label.now) }
{
    for i in 0..20usize {
        text.push(byte_at(label, i))?;
    }
    Ok(())
}

/// The letter of a strip in a row.
fn letter_at(row: usize, strip: &[u8]) -> u8
    ensures { result ≡ letter_at row strip.now }
{
    strip.get(row).copied().unwrap_or(b':')
}

/// The letters of a row.
fn put_letters(text: &mut Vec<u8>, strips: &[Strip], row: usize) -> Result<(), NoMemory>
    ensures { OnOk result (text.new.items ≡ text.old.items ++ map (letter_at row) strips.now) }
{
    for strip in strips {
        text.push(letter_at(row, strip.as_slice()))?;
    }
    Ok(())
}

/// A row.
fn put_row(
    text: &mut Vec<u8>,
    labels: &[Name],
    strips: &[Strip],
    row: usize,
) -> Result<(), NoMemory>
    requires { row < length labels.now }
    ensures { OnOk result (text.new.items ≡ text.old.items ++ row_text labels.now strips.now row) }
{
    put_padded(text, labels[row].as_slice())?;
    put_letters(text, strips, row)?;
    text.push(b'\n')?;
    Ok(())
}

/// An empty line, and all rows.
fn put_panel(text: &mut Vec<u8>, labels: &[Name], strips: &[Strip]) -> Result<(), NoMemory>
    ensures { OnOk result (text.new.items ≡ text.old.items ++ panel_text labels.now strips.now) }
{
    text.push(b'\n')?;
    for row in 0..labels.len() {
        put_row(text, labels, strips, row)?;
    }
    Ok(())
}

/// The strips of a panel.
fn strips_in(strips: &[Strip], panel: usize) -> &[Strip]
    requires { 80 * panel ≤ length strips.now }
    ensures { result.now ≡ strips_in strips.now panel }
{
    let behind = strips.split_at(80 * panel).1;
    behind.split_at(80usize.min(behind.len())).0
}

/// All panels.
pub(crate) fn put_panels(
    text: &mut Vec<u8>,
    labels: &[Name],
    strips: &[Strip],
) -> Result<(), NoMemory>
    ensures { OnOk result (text.new.items ≡ text.old.items ++ panels_text labels.now strips.now) }
{
    for panel in 0..strips.len().div_ceil(80) {
        put_panel(text, labels, strips_in(strips, panel))?;
    }
    Ok(())
}
