//! The text report.
ghost use Rattle.std.specs.Prelude.{◌≡◌, ◌+◌, ◌^◌, ◌<◌, ◌∷◌, [], ◌++◌, OnOk, OnErr, codes, decimal, length, map};
ghost use Rattle.std.specs.Io.{StartsWith};
ghost use Rattle.std.specs.Fmt.{signed_decimal};
ghost use Rattle.dpc_model.specs.Words.{spaced, line_of, text_of};
ghost use Rattle.line_writer.specs.Spaces.{behind_spaces};
ghost use Rattle.report.specs.Text.{tuple_words, item_words, settled_word, summary_words, client_lines, total_words};
ghost use Rattle.dpc_model.specs.Sessions.{stable_items};
ghost use Rattle.dpc_model.specs.declared.tuples.Item.TheVariants.{Stable};

use dpc_lists::faults::NoMemory;
use dpc_model::tuples::{Item, Tuple};
use line_writer::{put_first, put_number, put_values, put_word};

/// What the last line of a client tells: how many stable tuples it holds, up to where they are all,
/// how many tentative ones, and whether nothing is missing and nothing may change.
#[derive(Clone, Copy, Debug)]
pub struct Summary {
    pub stable: u64,
    pub bound: u64,
    pub tentative: u64,
    pub settled: bool,
}

/// The time and the values of a tuple, each behind a space.
#[tactic(auto, using(line_writer::proofs::Kept::kept_last))]
fn put_tuple(text: &mut Vec<u8>, tuple: &Tuple) -> Result<(), NoMemory>
    ensures put { OnOk result (text.new.items ≡ text.old.items ++ behind_spaces (tuple_words tuple.now)) }
    ensures kept { OnErr result (StartsWith text.new.items text.old.items) }
{
    put_number(text, tuple.stime)?;
    put_values(text, tuple.vals.as_slice())
}

/// The words of a stable tuple of this number.
#[tactic(auto, using(line_writer::proofs::Kept::kept_then, line_writer::proofs::Kept::kept_last))]
fn put_stable(text: &mut Vec<u8>, number: u64, tuple: &Tuple) -> Result<(), NoMemory>
    ensures put { OnOk result (text.new.items ≡ text.old.items ++ spaced (item_words (Stable number tuple.now))) }
    ensures kept { OnErr result (StartsWith text.new.items text.old.items) }
{
    put_first(text, b"stable")?;
    put_number(text, number)?;
    put_tuple(text, tuple)
}

/// The words of an item.
#[tactic(auto, using(line_writer::proofs::Kept::kept_then, line_writer::proofs::Kept::kept_last))]
fn put_item(text: &mut Vec<u8>, item: &Item) -> Result<(), NoMemory>
    ensures put { OnOk result (text.new.items ≡ text.old.items ++ spaced (item_words item.now)) }
    ensures kept { OnErr result (StartsWith text.new.items text.old.items) }
{
    match item {
        Item::Stable(number, tuple) => put_stable(text, *number, tuple),
        Item::Tentative(tuple) => {
            put_first(text, b"tentative")?;
            put_tuple(text, tuple)
        }
        Item::Passed(upto) => {
            put_first(text, b"passed")?;
            put_number(text, *upto)
        }
        Item::Boundary(bound, count) => {
            put_first(text, b"boundary")?;
            put_number(text, *bound)?;
            put_number(text, *count)
        }
        Item::Undo(number) => {
            put_first(text, b"undo")?;
            put_number(text, *number)
        }
        Item::RecDone => put_first(text, b"rec_done"),
    }
}

/// One line for each item.
#[tactic(auto, using(line_writer::proofs::Kept::kept_behind, line_writer::proofs::Kept::kept_then))]
pub fn put_items(text: &mut Vec<u8>, items: &[Item]) -> Result<(), NoMemory>
    ensures put { OnOk result (text.new.items ≡ text.old.items ++ text_of (map item_words items.now)) }
    ensures kept { OnErr result (StartsWith text.new.items text.old.items) }
{
    for item in items {
        put_item(text, item)?;
        text.push(b'\n')?;
    }
    Ok(())
}

/// The line of a client's name.
#[tactic(auto, using(line_writer::proofs::Kept::kept_behind, line_writer::proofs::Kept::kept_then))]
pub fn put_name(text: &mut Vec<u8>, name: &[u8]) -> Result<(), NoMemory>
    ensures put { OnOk result (text.new.items ≡ text.old.items ++ line_of (codes "client" ∷ name.now ∷ [])) }
    ensures kept { OnErr result (StartsWith text.new.items text.old.items) }
{
    put_first(text, b"client")?;
    put_word(text, name)?;
    text.push(b'\n')?;
    Ok(())
}

/// A word and a number, each behind a space.
#[tactic(auto, using(line_writer::proofs::Kept::kept_last))]
fn put_count(text: &mut Vec<u8>, word: &[u8], number: u64) -> Result<(), NoMemory>
    ensures put { OnOk result (text.new.items ≡ text.old.items ++ behind_spaces (word.now ∷ decimal number ∷ [])) }
    ensures kept { OnErr result (StartsWith text.new.items text.old.items) }
{
    put_word(text, word)?;
    put_number(text, number)
}

/// Whether a client is settled, as a word behind a space.
fn put_settled(text: &mut Vec<u8>, settled: bool) -> Result<(), NoMemory>
    ensures put { OnOk result (text.new.items ≡ text.old.items ++ behind_spaces (settled_word settled ∷ [])) }
    ensures kept { OnErr result (StartsWith text.new.items text.old.items) }
{
    if settled {
        put_word(text, b"settled")
    } else {
        put_word(text, b"open")
    }
}

/// The summary line of a client. Where memory ends, the old text stands.
#[tactic(auto, using(line_writer::proofs::Kept::kept_behind, line_writer::proofs::Kept::kept_then))]
pub fn put_summary(text: &mut Vec<u8>, name: &[u8], summary: &Summary) -> Result<(), NoMemory>
    ensures put { OnOk result (text.new.items ≡ text.old.items ++ line_of (summary_words name.now summary.now)) }
    ensures kept { OnErr result (StartsWith text.new.items text.old.items) }
{
    put_first(text, b"summary")?;
    put_word(text, name)?;
    put_count(text, b"stable", summary.stable)?;
    put_count(text, b"bound", summary.bound)?;
    put_count(text, b"tentative", summary.tentative)?;
    put_settled(text, summary.settled)?;
    text.push(b'\n')?;
    Ok(())
}

/// Appends the lines of one client: its name, one line for each item that it took, and its summary.
/// Where memory ends, the old text stands, and what stands behind it is left open.
#[tactic(auto, using(line_writer::proofs::Kept::kept_then, line_writer::proofs::Kept::kept_last))]
pub fn put_client(
    text: &mut Vec<u8>,
    name: &[u8],
    items: &[Item],
    summary: &Summary,
) -> Result<(), NoMemory>
    ensures put { OnOk result (text.new.items ≡ text.old.items ++ text_of (client_lines name.now items.now summary.now)) }
    ensures kept { OnErr result (StartsWith text.new.items text.old.items) }
{
    put_name(text, name)?;
    put_items(text, items)?;
    put_summary(text, name, summary)
}

/// Appends the lines of some tuples of a stream, of which the first has this number. Where memory ends,
/// the old text stands, and what stands behind it is left open.
#[tactic(auto, using(line_writer::proofs::Kept::kept_behind, line_writer::proofs::Kept::kept_then))]
pub fn put_numbered(text: &mut Vec<u8>, first: u64, tuples: &[Tuple]) -> Result<(), NoMemory>
    requires { first + length tuples.now < 2 ^ 64 }
    ensures put { OnOk result (text.new.items
        ≡ text.old.items ++ text_of (map item_words (stable_items first tuples.now))) }
    ensures kept { OnErr result (StartsWith text.new.items text.old.items) }
{
    for (number, tuple) in tuples.iter().enumerate() {
        put_stable(text, first + number as u64, tuple)?;
        text.push(b'\n')?;
    }
    Ok(())
}

/// Appends the line that tells how many tuples a stream has. Where memory ends, the old text stands.
#[tactic(auto, using(line_writer::proofs::Kept::kept_behind, line_writer::proofs::Kept::kept_then))]
pub fn put_total(text: &mut Vec<u8>, count: u64) -> Result<(), NoMemory>
    ensures put { OnOk result (text.new.items ≡ text.old.items ++ line_of (total_words count)) }
    ensures kept { OnErr result (StartsWith text.new.items text.old.items) }
{
    put_first(text, b"total")?;
    put_number(text, count)?;
    text.push(b'\n')?;
    Ok(())
}
