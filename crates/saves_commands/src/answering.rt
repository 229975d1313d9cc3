//! What is to be written of what the nodes of a script save.
ghost use Rattle.std.specs.Prelude.{◌≡◌, ◌≤◌, ◌+◌, length, vec_len, All, IfOk, OnOk};
ghost use Rattle.dpc_model.specs.Actors.{nodes_of};
ghost use Rattle.dpc_model.specs.Limits.{most_input};
ghost use Rattle.journal_commands.specs.Endings.{Ending, IsEnding};
ghost use Rattle.law_fit.specs.Fits.{CanRun};
ghost use Rattle.saves_commands.specs.Disks.{HasRoom};
ghost use Rattle.saves_commands.specs.Endings.{EndsRun, EndsSaves};
ghost use Rattle.script_rules.specs.Checking.{IsChecked};
ghost use Rattle.world_model.specs.Schedules.{lockstep_journal};
ghost use Rattle.world_model.specs.Worlds.{excess};

use crate::lines::saves_text;
use diagram_reader::faults::ScriptFault;
use diagram_reader::read_script;
use disk_model::mem_disk::MemDisk;
use dpc_lists::faults::NoMemory;
use dpc_model::plans::Plan;
use dpc_model::scripts::Script;
use journal_commands::outcome::Outcome;
use saved_runs::faults::SavesFault;
use saved_runs::runs::save_phases;
use status_lines::{fault_line, too_long_line};
use std::alloc::Global;

/// How many bytes a slot has. Of a disk in memory only what is written takes memory.
const SLOT_ROOM: u64 = 1 << 32;

/// What `saves` comes to of the script in an input of at most 64 MiB. The input is let go before the run.
pub fn answer(alloc: Global, input: Vec<u8>) -> Result<Outcome, NoMemory>
    requires { vec_len input ≤ most_input }
    ensures { IfOk result (λ outcome. (ending : Ending) × EndsSaves input.items ending × IsEnding ending outcome) }
{
    let script = read_script(alloc, input.as_slice());
    drop(input);
    match script {
        Ok(script) => run_answer(alloc, script),
        Err(ScriptFault::NoMemory) => Err(NoMemory),
        Err(ScriptFault::Refused(fault)) => Ok(Outcome::Refused(fault_line(alloc, fault)?)),
    }
}

/// So many disks in memory more, each with room for two slots. They fail no call.
fn push_disks(alloc: Global, disks: &mut Vec<MemDisk>, count: u64) -> Result<(), NoMemory>
    ensures many { OnOk result (length disks.new.items ≡ length disks.old.items + count) }
    ensures size { All HasRoom disks.old.items → All HasRoom disks.new.items }
{
    for _ in 0..count {
        disks.push(MemDisk::new(SLOT_ROOM + SLOT_ROOM, Vec::new(alloc)))?;
    }
    Ok(())
}

/// A disk for each node.
fn disks_for(alloc: Global, plan: &Plan) -> Result<Vec<MemDisk>, NoMemory>
    ensures many { IfOk result (λ disks. length disks.items ≡ length (nodes_of plan.now)) }
    ensures size { IfOk result (λ disks. All HasRoom disks.items) }
{
    let mut disks = Vec::new(alloc);
    for frag in plan.frags.as_slice() {
        push_disks(alloc, &mut disks, frag.replicas)?;
    }
    Ok(disks)
}

/// What it comes to of its one-thread run.
fn run_answer(alloc: Global, script: Script) -> Result<Outcome, NoMemory>
    requires can { CanRun script.plan }
    requires checked { IsChecked script }
    ensures { IfOk result (λ outcome. (ending : Ending) × EndsRun script (excess script.plan (lockstep_journal script)) ending × IsEnding ending outcome) }
{
    let settle = script.settle;
    let mut disks = disks_for(alloc, &script.plan)?;
    let (world, told) = match save_phases(alloc, script, SLOT_ROOM, &mut disks) {
        Ok(made) => made,
        Err(SavesFault::TooLong { envelopes, items }) => {
            return Ok(Outcome::TooLong(too_long_line(alloc, envelopes, items)?));
        }
        Err(_) => return Err(NoMemory),
    };
    let text = saves_text(alloc, world.plan(), told.as_slice())?;
    if settle && !world.settled() {
        Ok(Outcome::Open(text))
    } else {
        Ok(Outcome::Text(text))
    }
}
