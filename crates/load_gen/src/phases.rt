//! The phases: releases, and a failure in every fifth phase.
ghost use Rattle.std.specs.Prelude.{◌≡◌, ◌+◌, ◌*◌, ◌<◌, ◌≤◌, ◌++◌, IfOk, OnOk, ℕ, length, option_to_list};
ghost use Rattle.load_gen.specs.Generated.{state_after, entries, failure, ending, failures, failure_draws, begun, ended, phase_of, phases, phases_of};

use crate::draws::Generator;
use dpc_lists::faults::NoMemory;
use dpc_lists::lists::Listed;
use dpc_model::scripts::{Directive, Phase};
use std::alloc::Global;

/// Failures, one in every fifth phase.
const FAILURES: u64 = 40;

/// Phases.
const PHASES: u64 = 200;

/// The draws of all failures in order.
pub fn failure_draws(alloc: Global, generator: &mut Generator) -> Result<Vec<u32>, NoMemory>
    ensures count { IfOk result (λ draws. length draws.items ≡ failures) }
    ensures draws { IfOk result (λ draws. (seed : ℕ) → generator.old.state ≡ state_after seed (4 * entries)
        → draws.items ≡ failure_draws seed failures) }
{
    let mut draws = Vec::with_capacity(alloc, FAILURES as usize)?;
    for _ in 0..FAILURES {
        draws.push(generator.draw())?;
    }
    Ok(draws)
}

/// A replica of a fragment as an actor.
fn node(frag: u64, replica: u64) -> u64
    requires { (frag < 6) × (replica < 3) }
    ensures { result ≡ 2 + 3 * frag + replica }
{
    2 + 3 * frag + replica
}

/// Failure number j by its draw.
fn failure(j: u64, draw: u32) -> Directive
    ensures { result ≡ failure j draw }
{
    match j % 4 {
        1 => Directive::Cut(0, node(0, u64::from(draw % 3))),
        2 => Directive::Cut(1, node(0, u64::from(draw % 3))),
        3 => Directive::Crash(node(2, 1 + u64::from(draw % 2))),
        _ => Directive::Lose(node(2, u64::from(draw % 3)), node(3, u64::from(draw % 3))),
    }
}

/// How failure number j ends. A loss has no end.
fn ending(j: u64, draw: u32) -> Option<Directive>
    ensures { result ≡ ending j draw }
{
    match j % 4 {
        1 => Some(Directive::Heal(0, node(0, u64::from(draw % 3)))),
        2 => Some(Directive::Heal(1, node(0, u64::from(draw % 3)))),
        3 => Some(Directive::Restart(node(2, 1 + u64::from(draw % 2)))),
        _ => None,
    }
}

/// The failure that begins in phase p.
fn begun(p: u64, draws: &[u32]) -> Option<Directive>
    requires draws { length draws.now ≡ failures }
    requires range { (1 ≤ p) × (p ≤ 200) }
    ensures { (seed : ℕ) → draws.now ≡ failure_draws seed failures → result ≡ begun seed p }
{
    let j = p / 5;
    if p % 5 != 0 {
        return None;
    }
    Some(failure(j, draws[(j - 1) as usize]))
}

/// What ends in phase p.
fn ended(p: u64, draws: &[u32]) -> Option<Directive>
    requires draws { length draws.now ≡ failures }
    requires range { (1 ≤ p) × (p ≤ 200) }
    ensures { (seed : ℕ) → draws.now ≡ failure_draws seed failures → result ≡ ended seed p }
{
    let j = p / 5;
    if p % 5 != 2 || p <= 2 {
        return None;
    }
    ending(j, draws[(j - 1) as usize])
}

/// A directive, where there is one, behind others.
fn put(directives: &mut Vec<Directive>, directive: Option<Directive>) -> Result<(), NoMemory>
    ensures { OnOk result (directives.new.items ≡ directives.old.items ++ option_to_list directive) }
{
    if let Some(directive) = directive {
        directives.push(directive)?;
    }
    Ok(())
}

/// Phase p, from 1.
fn phase(alloc: Global, p: u64, draws: &[u32]) -> Result<Phase, NoMemory>
    requires draws { length draws.now ≡ failures }
    requires range { (1 ≤ p) × (p ≤ 200) }
    ensures { IfOk result (λ x. (seed : ℕ) → draws.now ≡ failure_draws seed failures → x ≡ phase_of seed p) }
{
    let mut directives = Vec::with_capacity(alloc, 4)?;
    put(&mut directives, ended(p, draws))?;
    put(&mut directives, begun(p, draws))?;
    directives.push(Directive::Release(0, 500 * p))?;
    directives.push(Directive::Release(1, 500 * p))?;
    Ok(Phase {
        directives: Listed::from_vec(directives),
        now: p,
    })
}

/// All phases.
pub fn phases(alloc: Global, draws: &[u32]) -> Result<Listed<Phase>, NoMemory>
    requires { length draws.now ≡ failures }
    ensures { IfOk result (λ ps. (seed : ℕ) → draws.now ≡ failure_draws seed failures
        → ps ≡ phases_of seed phases) }
{
    let mut phases = Vec::with_capacity(alloc, PHASES as usize)?;
    for p in 0..PHASES {
        phases.push(phase(alloc, p + 1, draws)?)?;
    }
    Ok(Listed::from_vec(phases))
}
