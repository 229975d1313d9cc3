//! The lines of directives and ticks, behind a plan without a fault.
ghost use Rattle.std.specs.Prelude.{◌≡◌, ◌∷◌, [], ◌++◌, ℕ, Bool, map, flat_map, fold, unwrap_or};
ghost use Rattle.dpc_model.specs.Actors as actors;
ghost use Rattle.script_rules.specs.Reasons as reason;
ghost use Rattle.script_rules.specs.Reasons.{first_of_tests, down_after};
ghost use Rattle.script_rules.specs.Checking.{IsChecked, directive_statement, phase_statements};
ghost use Rattle.script_check.specs.Judging.{told, Judges, bare, running};
ghost use Rattle.script_check.specs.Locals as local;

use dpc_model::actors::{Role, are_linked, role_of};
use dpc_model::plans::Plan;
use dpc_model::scripts::{Directive, Phase};
use script_draft::ends::clock_of;
use script_draft::limits::MOST_PHASES;
use script_rules::reasons::{PlanFault, Reason};

/// Whether the actor of that number is a node.
fn is_node(plan: &Plan, actor: u64) -> bool
    ensures { result ≡ reason.is_node (actors.role_of plan.now actor) }
{
    matches!(role_of(plan, actor), Role::Node(_, _))
}

/// Whether a directive makes a node go down or come up, if either.
fn change_of(directive: Directive, node: u64) -> Option<bool>
    ensures { (down : Bool) → down_after node down directive ≡ unwrap_or result down }
{
    match directive {
        Directive::Crash(other) => { if node == other { Some(true) } else { None } }
        Directive::Restart(other) => { if node == other { Some(false) } else { None } }
        _ => None,
    }
}

/// Whether the last of these directives that makes a node go down or come up makes it go down, if there is one.
fn last_change(directives: &[Directive], node: u64) -> Option<bool>
    ensures { (down : Bool) → fold (down_after node) down directives.now ≡ unwrap_or result down }
{
    let mut left = directives.len();
    while left > 0 {
        left -= 1;
        if let Some(down) = change_of(directives[left], node) {
            return Some(down);
        }
    }
    None
}

/// Whether a node is down behind these phases and directives. It looks back up to the node's last crash or restart.
fn is_down(phases: &[Phase], directives: &[Directive], node: u64) -> bool
    ensures { result ≡ local.is_down phases.now directives.now node }
{
    if let Some(down) = last_change(directives, node) {
        return down;
    }
    let mut left = phases.len();
    while left > 0 {
        left -= 1;
        if let Some(down) = last_change(phases[left].directives.as_slice(), node) {
            return down;
        }
    }
    false
}

/// The least reason against a directive, behind these phases and directives.
fn fault_of_directive(
    plan: &Plan,
    phases: &[Phase],
    directives: &[Directive],
    directive: &Directive,
) -> Option<Reason>
    ensures { result ≡ first_of_tests (local.against_directive plan.now phases.now directives.now directive.now) }
{
    match *directive {
        Directive::Emit(source, _) | Directive::Release(source, _) => {
            if source < plan.sources.len() as u64 {
                None
            } else {
                Some(Reason::Unknown)
            }
        }
        Directive::Cut(a, b)
        | Directive::Heal(a, b)
        | Directive::Lose(a, b)
        | Directive::Repeat(a, b) => {
            if are_linked(plan, a, b) {
                None
            } else {
                Some(Reason::Unknown)
            }
        }
        Directive::Crash(node) => {
            if !is_node(plan, node) {
                Some(Reason::Unknown)
            } else if is_down(phases, directives, node) {
                Some(Reason::AgainstState)
            } else {
                None
            }
        }
        Directive::Restart(node) => {
            if !is_node(plan, node) {
                Some(Reason::Unknown)
            } else if is_down(phases, directives, node) {
                None
            } else {
                Some(Reason::AgainstState)
            }
        }
    }
}

/// The least reason against a tick behind these phases.
fn fault_of_tick(before: &[Phase], now: u64) -> Option<Reason>
    ensures { result ≡ first_of_tests (local.against_tick before.now now) }
{
    if now < clock_of(before) {
        Some(Reason::AgainstState)
    } else if before.len() >= MOST_PHASES {
        Some(Reason::PastLimit)
    } else {
        None
    }
}

/// The line behind the directives of a phase, or the first fault.
fn check_directives(
    plan: &Plan,
    before: &[Phase],
    directives: &[Directive],
    line: u64,
) -> Result<u64, PlanFault>
    ensures { (n : ℕ) → line ≡ told n → IsChecked (bare plan.now)
        → Judges result n (running plan.now before.now []) (map (directive_statement plan.now) directives.now) }
{
    let mut next = line;
    for (i, directive) in directives.iter().enumerate() {
        if let Some(reason) = fault_of_directive(plan, before, &directives[..i], directive) {
            return Err(PlanFault { line: next, reason });
        }
        next = next.saturating_add(1);
    }
    Ok(next)
}

/// The line behind a phase, or the first fault.
fn check_phase(plan: &Plan, before: &[Phase], phase: &Phase, line: u64) -> Result<u64, PlanFault>
    ensures { (n : ℕ) → line ≡ told n → IsChecked (bare plan.now)
        → Judges result n (running plan.now before.now []) (phase_statements plan.now phase.entry.now) }
{
    match check_directives(plan, before, phase.directives.as_slice(), line) {
        Ok(next) => match fault_of_tick(before, phase.now) {
            Some(reason) => Err(PlanFault { line: next, reason }),
            None => Ok(next.saturating_add(1)),
        },
        Err(fault) => Err(fault),
    }
}

/// The line behind all phases, or the first fault.
pub fn check_phases(plan: &Plan, phases: &[Phase], line: u64) -> Result<u64, PlanFault>
    ensures { (n : ℕ) → line ≡ told n → IsChecked (bare plan.now)
        → Judges result n (running plan.now [] []) (flat_map (phase_statements plan.now) phases.now) }
{
    let mut next = line;
    for (i, phase) in phases.iter().enumerate() {
        match check_phase(plan, &phases[..i], phase, next) {
            Ok(behind) => next = behind,
            Err(fault) => return Err(fault),
        }
    }
    Ok(next)
}
