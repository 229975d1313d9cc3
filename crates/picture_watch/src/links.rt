//! Which links are cut.
ghost use Rattle.std.specs.Prelude.{◌≡◌, not, ◌&&◌, if◌then◌else◌, filter, OnOk};
ghost use Rattle.dpc_lists.specs.Lists.{list_any, push};
ghost use Rattle.dpc_model.specs.Actors.{are_linked};
ghost use Rattle.world_model.specs.Worlds.{same_pair};

use dpc_lists::faults::NoMemory;
use dpc_model::actors::are_linked;
use dpc_model::plans::Plan;

/// Whether these are the same two actors, in either order.
fn same_pair(a: u32, b: u32, pair: (u32, u32)) -> bool
    ensures { result ≡ same_pair a b pair }
{
    pair == (a, b) || pair == (b, a)
}

/// Whether a link is among those that are cut.
fn is_among(cuts: &[(u32, u32)], a: u32, b: u32) -> bool
    ensures { result ≡ list_any (same_pair a b) cuts.now }
{
    cuts.iter().any(|pair| same_pair(a, b, *pair))
}

/// A link is cut, where there is one that is up.
pub(crate) fn cut(cuts: &mut Vec<(u32, u32)>, plan: &Plan, a: u32, b: u32) -> Result<(), NoMemory>
    ensures { OnOk result (cuts.new.items
        ≡ (if are_linked plan.now a b && not (list_any (same_pair a b) cuts.old.items) then push cuts.old.items (a, b) else cuts.old.items)) }
{
    if are_linked(plan, u64::from(a), u64::from(b)) && !is_among(cuts.as_slice(), a, b) {
        cuts.push((a, b))?;
    }
    Ok(())
}

/// A link is up again, however often it was cut.
pub(crate) fn heal(cuts: &mut Vec<(u32, u32)>, a: u32, b: u32)
    ensures { cuts.new.items ≡ filter (λ pair. not (same_pair a b pair)) cuts.old.items }
{
    cuts.retain(|pair| !same_pair(a, b, *pair));
}
