//! How often a pending envelope is delivered.
ghost use Rattle.std.specs.Prelude.{◌≡◌, false, IfOk};
ghost use Rattle.dpc_lists.specs.Lists.{list_any};
ghost use Rattle.world_model.specs.Schedules.{deliveries_of};
ghost use Rattle.world_core.specs.Runs.{world_of};
ghost use Rattle.lockstep.specs.Ends.{goes_so, loses_so, repeats_so, fates_of};

use dpc_model::scripts::Directive;
use std::alloc::{AllocError, Global};
use world_core::world::World;

/// The directives that lose or repeat envelopes.
pub fn fates(alloc: Global, directives: &[Directive]) -> Result<Vec<Directive>, AllocError>
    ensures { IfOk result (λ fates. fates.items ≡ fates_of directives.now) }
{
    let mut fates = Vec::new(alloc);
    for directive in directives {
        if let Directive::Lose(_, _) | Directive::Repeat(_, _) = directive {
            fates.push(*directive)?;
        }
    }
    Ok(fates)
}

/// Whether an envelope with this sender and addressee goes from a to b.
fn goes(ends: Option<(u64, u64)>, a: u64, b: u64) -> bool
    ensures { result ≡ goes_so a b ends }
{
    match ends {
        Some((sender, to)) => sender == a && to == b,
        None => false,
    }
}

fn loses(ends: Option<(u64, u64)>, directive: Directive) -> bool
    ensures { result ≡ loses_so ends directive }
{
    match directive {
        Directive::Lose(a, b) => goes(ends, a, b),
        _ => false,
    }
}

fn repeats(ends: Option<(u64, u64)>, directive: Directive) -> bool
    ensures { result ≡ repeats_so ends directive }
{
    match directive {
        Directive::Repeat(a, b) => goes(ends, a, b),
        _ => false,
    }
}

fn is_lost(ends: Option<(u64, u64)>, fates: &[Directive]) -> bool
    ensures { result ≡ list_any (loses_so ends) fates.now }
{
    fates.iter().any(|fate| loses(ends, *fate))
}

fn is_repeated(ends: Option<(u64, u64)>, fates: &[Directive]) -> bool
    ensures { result ≡ list_any (repeats_so ends) fates.now }
{
    fates.iter().any(|fate| repeats(ends, *fate))
}

/// How often envelope number k comes in a phase with these directives.
pub fn deliveries(world: &World, fates: &[Directive], k: u64) -> u64
    requires { world.now.spent ≡ false }
    ensures { result ≡ deliveries_of (world_of world.now) fates.now k }
{
    let ends = world.ends(k);
    if is_lost(ends, fates) || !world.may_come(k) {
        return 0;
    }
    if is_repeated(ends, fates) { 2 } else { 1 }
}
