//! The lines that tell what is wrong with an input, or with its run.
#![tactic(auto)]

ghost use Rattle.std.specs.Prelude.{◌≡◌, IfOk};
ghost use Rattle.status_lines.specs.Lines as lines;

use itoa::Buffer;
use script_rules::reasons::PlanFault;
use std::alloc::{AllocError, Global};

/// The refusal of a script.
pub fn fault_line(alloc: Global, fault: PlanFault) -> Result<Vec<u8>, AllocError>
    ensures { IfOk result (λ line. line.items ≡ lines.fault_line fault) }
{
    refusal_line(alloc, fault.line, fault.reason.number())
}

/// The refusal of a script, by the number of its reason.
fn refusal_line(alloc: Global, number: u64, reason: u64) -> Result<Vec<u8>, AllocError>
    ensures { IfOk result (λ line. line.items ≡ lines.refusal_line number reason) }
{
    let mut buffer = Buffer::new();
    let mut line = Vec::from_slice(alloc, b"line ")?;
    line.extend_from_slice(buffer.format(number).as_bytes())?;
    line.extend_from_slice(b": reason ")?;
    line.extend_from_slice(buffer.format(reason).as_bytes())?;
    line.push(b'\n')?;
    Ok(line)
}

/// The refusal of a journal behind so many entries, by the number of its reason.
pub fn entry_line(alloc: Global, entry: u64, reason: u64) -> Result<Vec<u8>, AllocError>
    ensures { IfOk result (λ line. line.items ≡ lines.entry_line entry reason) }
{
    let mut buffer = Buffer::new();
    let mut line = Vec::from_slice(alloc, b"entry ")?;
    line.extend_from_slice(buffer.format(entry).as_bytes())?;
    line.extend_from_slice(b": reason ")?;
    line.extend_from_slice(buffer.format(reason).as_bytes())?;
    line.push(b'\n')?;
    Ok(line)
}

/// The refusal of a recorded stream behind so many items.
pub fn item_line(alloc: Global, item: u64) -> Result<Vec<u8>, AllocError>
    ensures { IfOk result (λ line. line.items ≡ lines.item_line item) }
{
    let mut buffer = Buffer::new();
    let mut line = Vec::from_slice(alloc, b"item ")?;
    line.extend_from_slice(buffer.format(item).as_bytes())?;
    line.extend_from_slice(b": no reading\n")?;
    Ok(line)
}

/// The line on a run that would pass a limit, and have so many envelopes and items.
pub fn too_long_line(alloc: Global, envelopes: u64, items: u64) -> Result<Vec<u8>, AllocError>
    ensures { IfOk result (λ line. line.items ≡ lines.too_long_line (record { envelopes = envelopes; items = items })) }
{
    let mut buffer = Buffer::new();
    let mut line = Vec::from_slice(alloc, b"too long: ")?;
    line.extend_from_slice(buffer.format(envelopes).as_bytes())?;
    line.extend_from_slice(b" envelopes, ")?;
    line.extend_from_slice(buffer.format(items).as_bytes())?;
    line.extend_from_slice(b" items")?;
    line.push(b'\n')?;
    Ok(line)
}
