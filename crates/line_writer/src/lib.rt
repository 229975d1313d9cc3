//! Lines of words, written behind a text. Where memory ends, the text that stood in front still stands.
#![tactic(auto)]

ghost use Rattle.std.specs.Prelude.{◌≡◌, ◌∷◌, [], ◌++◌, OnOk, OnErr, decimal, map};
ghost use Rattle.std.specs.Io.{StartsWith};
ghost use Rattle.std.specs.Fmt.{signed_decimal};
ghost use Rattle.line_writer.specs.Spaces.{behind_spaces};

use dpc_lists::faults::NoMemory;
use itoa::Buffer;

/// The first word of a line.
#[tactic(auto, using(crate::proofs::Kept::kept_same))]
pub fn put_first(text: &mut Vec<u8>, word: &[u8]) -> Result<(), NoMemory>
    ensures put { OnOk result (text.new.items ≡ text.old.items ++ word.now) }
    ensures kept { OnErr result (StartsWith text.new.items text.old.items) }
{
    text.extend_from_slice(word)?;
    Ok(())
}

/// A word behind a space.
#[tactic(auto, using(crate::proofs::Kept::kept_same, crate::proofs::Kept::kept_behind))]
pub fn put_word(text: &mut Vec<u8>, word: &[u8]) -> Result<(), NoMemory>
    ensures put { OnOk result (text.new.items ≡ text.old.items ++ behind_spaces (word.now ∷ [])) }
    ensures kept { OnErr result (StartsWith text.new.items text.old.items) }
{
    text.push(b' ')?;
    text.extend_from_slice(word)?;
    Ok(())
}

/// A number behind a space.
pub fn put_number(text: &mut Vec<u8>, number: u64) -> Result<(), NoMemory>
    ensures put { OnOk result (text.new.items ≡ text.old.items ++ behind_spaces (decimal number ∷ [])) }
    ensures kept { OnErr result (StartsWith text.new.items text.old.items) }
{
    let mut buffer = Buffer::new();
    put_word(text, buffer.format(number).as_bytes())
}

/// A value behind a space.
pub fn put_value(text: &mut Vec<u8>, value: i64) -> Result<(), NoMemory>
    ensures put { OnOk result (text.new.items ≡ text.old.items ++ behind_spaces (signed_decimal value ∷ [])) }
    ensures kept { OnErr result (StartsWith text.new.items text.old.items) }
{
    let mut buffer = Buffer::new();
    put_word(text, buffer.format(value).as_bytes())
}

/// The values, each behind a space.
#[tactic(auto, using(crate::proofs::Kept::kept_then))]
pub fn put_values(text: &mut Vec<u8>, values: &[i64]) -> Result<(), NoMemory>
    ensures put { OnOk result (text.new.items ≡ text.old.items ++ behind_spaces (map signed_decimal values.now)) }
    ensures kept { OnErr result (StartsWith text.new.items text.old.items) }
{
    for value in values {
        put_value(text, *value)?;
    }
    Ok(())
}

/// The end of a line.
#[tactic(auto, using(crate::proofs::Kept::kept_same))]
pub fn end_line(text: &mut Vec<u8>) -> Result<(), NoMemory>
    ensures put { OnOk result (text.new.items ≡ text.old.items ++ 10 ∷ []) }
    ensures kept { OnErr result (StartsWith text.new.items text.old.items) }
{
    text.push(b'\n')?;
    Ok(())
}
