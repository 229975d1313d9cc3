//! Whether the names, numbers and counts of a script are in their ranges.
ghost use Rattle.std.specs.Prelude.{◌≡◌, ◌==◌, ◌^◌, ◌&&◌, ◌||◌, if◌then◌else◌};
ghost use Rattle.dpc_lists.specs.Lists.{list_all};
ghost use Rattle.script_rules.specs.Spelling.{is_i64};
ghost use Rattle.script_rules.specs.Places as spec;
ghost use Rattle.script_rules.specs.Checking as rule;

use crate::operator_ranges::are_operators_in_range;
use dpc_model::plans::{ClientSpec, FragSpec, Plan, SourceSpec};
use dpc_model::scripts::{Directive, Phase, Script};
use dpc_model::tuples::Tuple;
use script_words::spelling::is_name;

/// The greatest delay and the greatest clock.
const LONGEST: u64 = 1_000_000_000_000;

/// Whether a number lies from one number up to another one.
pub fn is_between(low: u64, high: u64, number: u64) -> bool
    ensures { result ≡ spec.is_between low high number }
{
    low <= number && number <= high
}

/// Whether a value is in the range of its type, as it is.
pub fn is_i64(value: i64) -> bool
    ensures { result ≡ is_i64 value }
{
    i64::MIN <= value && value <= i64::MAX
}

/// Whether a number is in the range of its type, as it is.
pub fn is_u64(number: u64) -> bool
    ensures { result ≡ rule.is_u64 number }
{
    number <= u64::MAX
}

/// The greatest end and the greatest length of a window.
pub fn greatest_number(plan: &Plan) -> u64
    ensures { result ≡ rule.top plan.now }
{
    if plan.version == 3 {
        (1 << 62) - 1
    } else {
        (1 << 40) - 1
    }
}

/// The greatest width of a bucket.
fn greatest_width(plan: &Plan) -> u64
    ensures { result ≡ (if plan.now.version == 3 then 2 ^ 50 else 1000000) }
{
    if plan.version == 3 {
        1 << 50
    } else {
        1_000_000
    }
}

/// Whether versions 1 and 2 pass as their number says.
fn passes_by_version(plan: &Plan) -> bool
    ensures { result ≡ (plan.now.version == 3 || (if plan.now.passing then plan.now.version == 2 else plan.now.version == 1)) }
{
    if plan.version == 3 {
        true
    } else if plan.passing {
        plan.version == 2
    } else {
        plan.version == 1
    }
}

fn is_header_in_range(plan: &Plan) -> bool
    ensures { result ≡ rule.is_header_in_range plan.now }
{
    is_between(1, 3, plan.version)
        && passes_by_version(plan)
        && is_between(1, greatest_width(plan), plan.width)
        && is_between(0, LONGEST, plan.delay)
        && is_between(plan.width, greatest_number(plan), plan.end)
        && plan.end % plan.width == 0
}

fn are_values_in_range(values: &[i64]) -> bool
    ensures { result ≡ list_all is_i64 values.now }
{
    for value in values {
        if !is_i64(*value) {
            return false;
        }
    }
    true
}

fn is_entry_in_range(entry: &Tuple) -> bool
    ensures { result ≡ rule.is_log_in_range entry.now }
{
    is_u64(entry.stime)
        && is_between(1, 8, entry.vals.len() as u64)
        && are_values_in_range(entry.vals.as_slice())
}

fn is_log_in_range(log: &[Tuple]) -> bool
    ensures { result ≡ list_all rule.is_log_in_range log.now }
{
    for entry in log {
        if !is_entry_in_range(entry) {
            return false;
        }
    }
    true
}

fn is_source_in_range(source: &SourceSpec) -> bool
    ensures { result ≡ rule.is_source_in_range source.now }
{
    is_name(source.name.as_slice())
        && is_between(1, 8, source.columns)
        && is_log_in_range(source.log.as_slice())
}

fn are_sources_in_range(sources: &[SourceSpec]) -> bool
    ensures { result ≡ list_all rule.is_source_in_range sources.now }
{
    for source in sources {
        if !is_source_in_range(source) {
            return false;
        }
    }
    true
}

/// Whether a fragment's own delay is in range; only in version 3 it may have one.
fn is_delay_in_range(plan: &Plan, delay: Option<u64>) -> bool
    ensures { result ≡ rule.is_delay_in_range plan.now delay }
{
    match delay {
        None => true,
        Some(delay) => plan.version == 3 && is_between(0, LONGEST, delay),
    }
}

fn is_fragment_in_range(plan: &Plan, frag: &FragSpec) -> bool
    ensures { result ≡ rule.is_frag_in_range plan.now frag.now }
{
    is_name(frag.name.as_slice())
        && is_between(1, 4, frag.replicas)
        && is_delay_in_range(plan, frag.delay)
        && is_between(1, 8, frag.inputs.len() as u64)
        && are_operators_in_range(plan, frag.ops.as_slice())
}

fn are_fragments_in_range(plan: &Plan, frags: &[FragSpec]) -> bool
    ensures { result ≡ list_all (rule.is_frag_in_range plan.now) frags.now }
{
    for frag in frags {
        if !is_fragment_in_range(plan, frag) {
            return false;
        }
    }
    true
}

fn are_clients_in_range(clients: &[ClientSpec]) -> bool
    ensures { result ≡ list_all rule.is_client_in_range clients.now }
{
    for client in clients {
        if !is_name(client.name.as_slice()) {
            return false;
        }
    }
    true
}

fn is_directive_in_range(plan: &Plan, directive: Directive) -> bool
    ensures { result ≡ rule.is_directive_in_range plan.now directive }
{
    match directive {
        Directive::Emit(_, time) | Directive::Release(_, time) => is_between(1, plan.end, time),
        _ => true,
    }
}

fn is_phase_in_range(plan: &Plan, phase: &Phase) -> bool
    ensures { result ≡ rule.is_phase_in_range plan.now phase.entry.now }
{
    are_directives_in_range(plan, phase.directives.as_slice()) && is_between(0, LONGEST, phase.now)
}

fn are_directives_in_range(plan: &Plan, directives: &[Directive]) -> bool
    ensures { result ≡ list_all (rule.is_directive_in_range plan.now) directives.now }
{
    for directive in directives {
        if !is_directive_in_range(plan, *directive) {
            return false;
        }
    }
    true
}

fn are_phases_in_range(plan: &Plan, phases: &[Phase]) -> bool
    ensures { result ≡ list_all (rule.is_phase_in_range plan.now) phases.now }
{
    for phase in phases {
        if !is_phase_in_range(plan, phase) {
            return false;
        }
    }
    true
}

/// Whether the names, numbers and counts of a script are in their ranges. It takes no memory, and time linear in the script.
pub fn is_in_range(script: &Script) -> bool
    ensures { result ≡ rule.is_in_range script.now }
{
    let plan = &script.plan;
    is_header_in_range(plan)
        && are_sources_in_range(plan.sources.as_slice())
        && are_fragments_in_range(plan, plan.frags.as_slice())
        && are_clients_in_range(plan.clients.as_slice())
        && are_phases_in_range(plan, script.phases.as_slice())
}
