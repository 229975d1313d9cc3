//! The operators and the output of a node before the first bucket.
ghost use Rattle.std.specs.Prelude.{◌≡◌, ◌<◌, [], length, map, replicate, slice_get, Some, None, if◌then◌else◌, IfOk};
ghost use Rattle.dpc_model.specs.Fragments.{AreSoundFrags};
ghost use Rattle.dpc_model.specs.Sessions.{no_session, opening_session};
ghost use Rattle.dpc_model.specs.declared.plans.FragSpec.{FragSpec};
ghost use Rattle.fragment_mill.specs.Mills.{MillAfter};
ghost use Rattle.soutput.specs.Giving.{new_output};
ghost use Rattle.pipeline.specs.Flowing.{IsMillOf};

use checkpoint_redo::keeper::Keeper;
use dpc_lists::faults::NoMemory;
use dpc_model::plans::Plan;
use fragment_mill::mill::FragMill;
use soutput::output::SOutput;
use std::alloc::Global;

/// So many zeros.
pub(crate) fn zeros(alloc: Global, count: usize) -> Result<Vec<u64>, NoMemory>
    ensures { IfOk result (λ zeros. zeros.items ≡ replicate count 0) }
{
    let zeros = vec![in alloc; 0; count]?;
    Ok(zeros)
}

/// The operators of a fragment before bucket 0.
pub(crate) fn first_mill(
    alloc: Global,
    plan: &Plan,
    frag: usize,
) -> Result<Keeper<FragMill>, NoMemory>
    requires known { frag < length plan.now.frags }
    requires sound { AreSoundFrags plan.now.frags }
    ensures held { IfOk result (λ k. k.keeper.held ≡ None) }
    ensures after { IfOk result (λ k. MillAfter k.keeper.state [] 0) }
    ensures made { IfOk result (λ k. (f : FragSpec) → slice_get plan.now.frags frag ≡ Some f
        → IsMillOf f.ops plan.now.width k.keeper.state) }
{
    let mill = FragMill::new(alloc, plan, frag as u64)?;
    Ok(Keeper::new(mill))
}

/// The output of a sender before the first tuple. Where it serves from the opening, each reader's session
/// is open.
pub(crate) fn first_output(alloc: Global, readers: usize, serves: bool) -> Result<SOutput, NoMemory>
    ensures { IfOk result (λ o. o ≡ record (new_output readers 0 [] 0)
        { subs = replicate readers (if serves then opening_session else no_session) }) }
{
    let mut output = SOutput::new(alloc, readers)?;
    if !serves {
        return Ok(output);
    }
    output.open_first();
    Ok(output)
}
