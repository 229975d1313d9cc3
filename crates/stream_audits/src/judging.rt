//! A script, the recorded stream behind it, and the verdict.
ghost use Rattle.std.specs.Prelude.{◌≡◌, ℕ, List, Result, Some};
ghost use Rattle.dpc_model.specs.declared.tuples.Item as item;
ghost use Rattle.ideal_run.specs.IdealPlans.{IsIdealPlan};
ghost use Rattle.journal_inputs.specs.Inputs.{IsText};
ghost use Rattle.journal_inputs.specs.declared.faults.InputFault.TheVariants as fault;
ghost use Rattle.journal_inputs.specs.declared.faults.Refusal.TheVariants as refusal;
ghost use Rattle.recorded_streams.specs.Streams.{IsStream};
ghost use Rattle.stream_audits.specs.Judging as spec;
ghost use Rattle.stream_audits.specs.Answers.{IsVerdict, IsRecorded};

use crate::verdicts::verdict_line;
use audit_core::audit;
use audit_core::faults::AuditFault;
use audit_core::verdict::Verdict;
use dpc_model::plans::Plan;
use dpc_model::scripts::Script;
use dpc_model::tuples::Item;
use input_parts::notation::Notation;
use input_parts::split_input;
use journal_inputs::faults::{InputFault, Refusal};
use journal_inputs::script_in;
use recorded_streams::faults::StreamFault;
use recorded_streams::{read_stream, read_stream_frames};
use std::alloc::Global;

/// The word with which the line in front of a recorded stream begins.
fn stream_key(notation: Notation) -> &'static [u8]
    ensures { result.now ≡ spec.stream_key notation }
{
    match notation {
        Notation::Lines => b"stream",
        Notation::Frames => b"frames",
    }
}

/// A refusal behind so many items.
fn refused(items: u64) -> InputFault
    ensures { result ≡ fault.Refused (refusal.Stream items) }
{
    InputFault::Refused(Refusal::Stream(items))
}

/// What was read of a recorded stream, or why it is refused.
fn told(read: Result<(u64, Vec<Item>), StreamFault>) -> Result<(u64, Vec<Item>), InputFault>
    ensures { (is : Result (ℕ × List item.Item) ℕ) → IsStream is read → IsRecorded (spec.or_refusal is) result }
{
    match read {
        Ok(stream) => Ok(stream),
        Err(StreamFault::NoMemory) => Err(InputFault::NoMemory),
        Err(StreamFault::NoItem(items)) => Err(refused(items)),
    }
}

/// The client and the items of a recorded stream.
fn recorded_in(
    alloc: Global,
    notation: Notation,
    plan: &Plan,
    text: &[u8],
) -> Result<(u64, Vec<Item>), InputFault>
    ensures { IsRecorded (spec.or_refusal (spec.recorded_in notation plan.now text.now)) result }
{
    match notation {
        Notation::Lines => told(read_stream(alloc, plan, text)),
        Notation::Frames => told(read_stream_frames(alloc, plan, text)),
    }
}

/// The verdict on the items of a client.
#[tactic(auto, using(crate::proofs::Judged::no_client, crate::proofs::Judged::client_judged, crate::proofs::Judged::client_refused))]
fn verdict_on(
    alloc: Global,
    plan: &Plan,
    client: u64,
    items: Vec<Item>,
) -> Result<Verdict, InputFault>
    requires { IsIdealPlan plan.now }
    ensures { IsVerdict (spec.or_refusal (spec.verdict_on plan.now (client, items.items))) result }
{
    let Some(client) = plan.clients.as_slice().get(client as usize) else {
        return Err(refused(0));
    };
    match audit(alloc, plan, client.input, items) {
        Ok(verdict) => Ok(verdict),
        Err(AuditFault::NoMemory) => Err(InputFault::NoMemory),
        Err(AuditFault::NoReading(items)) => Err(refused(items)),
    }
}

/// The verdict on the recorded stream behind a script.
#[tactic(auto, using(crate::proofs::Judged::stream_refused, crate::proofs::Judged::stream_judged))]
fn judge_behind(
    alloc: Global,
    notation: Notation,
    script: &Script,
    text: &[u8],
) -> Result<Verdict, InputFault>
    requires { IsIdealPlan script.now.plan }
    ensures { IsVerdict (spec.judged_behind notation script.now (Some text.now)) result }
{
    match recorded_in(alloc, notation, &script.plan, text) {
        Ok((client, items)) => verdict_on(alloc, &script.plan, client, items),
        Err(fault) => Err(fault),
    }
}

/// The verdict on the recorded stream behind a script.
#[tactic(auto, using(crate::proofs::Judged::script_refused_by, crate::proofs::Judged::script_judged))]
fn judge(alloc: Global, notation: Notation, input: &[u8]) -> Result<Verdict, InputFault>
    ensures { IsVerdict (spec.judged_input notation input.now) result }
{
    let (script, behind) = split_input(input, stream_key(notation));
    match script_in(alloc, script) {
        Ok(script) => match behind {
            Some(text) => judge_behind(alloc, notation, &script, text),
            None => Err(refused(0)),
        },
        Err(fault) => Err(fault),
    }
}

/// The line of the verdict on the stream that somebody recorded of a client, behind its script. It is refused as the script is; where
/// the script is read, behind the items in front of the first place where none may stand, and where there is no such place, of the
/// first item that has no reading. Want of memory is the only other answer. It is linear in the input beside what milling the
/// failure-free stream takes, up to the first difference or the bound.
#[tactic(auto, using(crate::proofs::Judged::text_refused, crate::proofs::Judged::text_told))]
pub fn audit_text(alloc: Global, notation: Notation, input: &[u8]) -> Result<Vec<u8>, InputFault>
    ensures { IsText (spec.audited_text notation input.now) result }
{
    match judge(alloc, notation, input) {
        Ok(verdict) => Ok(verdict_line(alloc, &verdict)?),
        Err(fault) => Err(fault),
    }
}
