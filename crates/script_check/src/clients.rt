//! The lines of clients, and `begin`.
ghost use Rattle.std.specs.Prelude.{◌≡◌, ℕ, [], ◌∷◌, map, length};
ghost use Rattle.script_rules.specs.Reasons.{first_of_tests};
ghost use Rattle.script_rules.specs.Drafts.{Draft};
ghost use Rattle.script_rules.specs.Statements.{BeginLine};
ghost use Rattle.script_check.specs.Judging.{told, Judges};
ghost use Rattle.script_check.specs.Locals as local;
ghost use Rattle.script_check.specs.Behind.{IsBehindClients, JudgesClients};

use crate::names::{is_taken, name_of_stream, stream_of};
use dpc_model::plans::{ClientSpec, Plan};
use script_draft::fragments::has_empty;
use script_draft::limits::MOST_CLIENTS;
use script_draft::named::has_name;
use script_rules::reasons::{PlanFault, Reason};

/// The least reason against the line of a client behind these.
fn fault_of_client(plan: &Plan, before: &[ClientSpec], client: &ClientSpec) -> Option<Reason>
    ensures { result ≡ first_of_tests (local.against_client plan.now before.now client.now) }
{
    let sources = plan.sources.as_slice();
    let frags = plan.frags.as_slice();
    let name = client.name.as_slice();
    if is_taken(name, sources, frags) || has_name(name, before) {
        return Some(Reason::NameTaken);
    }
    let Some(_) = stream_of(name_of_stream(plan, client.input), sources, frags) else {
        return Some(Reason::ReadsAhead);
    };
    if before.len() >= MOST_CLIENTS {
        Some(Reason::PastLimit)
    } else {
        None
    }
}

/// The line behind all clients, or the first fault.
pub fn check_clients(plan: &Plan, line: u64) -> Result<u64, PlanFault>
    ensures { (n : ℕ) → (d : Draft) → line ≡ told n → IsBehindClients plan.now [] d
        → JudgesClients result n plan.now d }
{
    let clients = plan.clients.as_slice();
    let mut next = line;
    for (i, client) in clients.iter().enumerate() {
        if let Some(reason) = fault_of_client(plan, &clients[..i], client) {
            return Err(PlanFault { line: next, reason });
        }
        next = next.saturating_add(1);
    }
    Ok(next)
}

/// Whether a part is missing: a source, a fragment, a client, or an operator in a fragment.
fn lacks_part(plan: &Plan) -> bool
    ensures { result ≡ local.lacks_part plan.now }
{
    plan.sources.is_empty()
        || plan.frags.is_empty()
        || plan.clients.is_empty()
        || has_empty(plan.frags.as_slice())
}

/// The line behind `begin`, or its fault.
pub fn check_begin(plan: &Plan, line: u64) -> Result<u64, PlanFault>
    ensures { (n : ℕ) → (d : Draft) → line ≡ told n → IsBehindClients plan.now plan.now.clients d
        → Judges result n d (BeginLine ∷ []) }
{
    if lacks_part(plan) {
        return Err(PlanFault {
            line,
            reason: Reason::PartMissing,
        });
    }
    Ok(line.saturating_add(1))
}
