//! What is to be written of two clients of a script.
ghost use Rattle.std.specs.Prelude.{◌≡◌, ◌≤◌, ◌++◌, ◌∷◌, [], codes, vec_len, OnOk, IfOk};
ghost use Rattle.dpc_model.specs.Limits.{most_input};
ghost use Rattle.dpc_model.specs.Words.{line_of};
ghost use Rattle.dpc_model.specs.Reading.{Reader};
ghost use Rattle.back_channel.specs.Merging.{merge};
ghost use Rattle.back_channel.specs.Standing.{StandsFor};
ghost use Rattle.back_channel.specs.Told.{reader_of};
ghost use Rattle.journal_commands.specs.Endings.{IsEnding};
ghost use Rattle.law_fit.specs.Fits.{CanRun};
ghost use Rattle.law_pairs.specs.Pairs.{AreReaders};
ghost use Rattle.pair_commands.specs.Named.{pair_named};
ghost use Rattle.pair_commands.specs.Pairs.{pair_ending, named_ending, run_ending, pair_text};
ghost use Rattle.pair_run.specs.Seen.{HasSeen, HasTold};
ghost use Rattle.report.specs.Text.{summary_of};
ghost use Rattle.run_watchers.specs.Watching.{unstarted};
ghost use Rattle.world_model.specs.Worlds.{excess};
ghost use Rattle.world_model.specs.Schedules.{lockstep_journal};

use crate::naming::pair_named;
use back_channel::pair::Pair;
use diagram_reader::faults::ScriptFault;
use diagram_reader::read_script;
use dpc_lists::faults::NoMemory;
use dpc_model::scripts::Script;
use journal_commands::outcome::Outcome;
use line_writer::{put_first, put_word};
use lockstep::faults::RunFault;
use lockstep::lock::run_watched;
use pair_run::pairing::Pairing;
use report::text::{Summary, put_items, put_summary};
use script_rules::reasons::{PlanFault, Reason};
use status_lines::{fault_line, too_long_line};
use std::alloc::Global;
use world_core::world::World;

/// The refusal of names that are not those of two clients of one stream.
const NO_READERS: PlanFault = PlanFault {
    line: 0,
    reason: Reason::Unknown,
};

/// What `pair` comes to of the script in an input of at most 64 MiB, with two names of clients. The input is let go before the run.
pub fn answer(
    alloc: Global,
    first: &[u8],
    second: &[u8],
    input: Vec<u8>,
) -> Result<Outcome, NoMemory>
    requires { vec_len input ≤ most_input }
    ensures { IfOk result (IsEnding (pair_ending first.now second.now input.items)) }
{
    let script = read_script(alloc, input.as_slice());
    drop(input);
    match script {
        Ok(script) => script_answer(alloc, first, second, script),
        Err(ScriptFault::NoMemory) => Err(NoMemory),
        Err(ScriptFault::Refused(fault)) => Ok(Outcome::Refused(fault_line(alloc, fault)?)),
    }
}

/// What it comes to of a script.
fn script_answer(
    alloc: Global,
    first: &[u8],
    second: &[u8],
    script: Script,
) -> Result<Outcome, NoMemory>
    requires { CanRun script.plan }
    ensures { IfOk result (IsEnding (named_ending first.now second.now script (pair_named script.plan first.now second.now))) }
{
    match pair_named(&script.plan, first, second) {
        Some((one, other)) => run_answer(
            alloc,
            first,
            second,
            script,
            Pairing::new(alloc, one, other),
        ),
        None => Ok(Outcome::Refused(fault_line(alloc, NO_READERS)?)),
    }
}

/// What it comes to of its one-thread run.
fn run_answer(
    alloc: Global,
    first: &[u8],
    second: &[u8],
    script: Script,
    mut pairing: Pairing,
) -> Result<Outcome, NoMemory>
    requires can { CanRun script.plan }
    requires readers { AreReaders script.plan pairing.first pairing.second }
    requires unstarted { HasSeen pairing (unstarted script.plan) pairing }
    ensures { IfOk result (IsEnding (run_ending first.now second.now script pairing.first pairing.second
        (excess script.plan (lockstep_journal script)))) }
{
    let settle = script.settle;
    let world = match run_watched(alloc, script, &mut pairing) {
        Ok(world) => world,
        Err(RunFault::NoMemory) => return Err(NoMemory),
        Err(RunFault::TooLong { envelopes, items }) => {
            return Ok(Outcome::TooLong(too_long_line(alloc, envelopes, items)?));
        }
    };
    let text = stream_text(alloc, first, second, &world, &pairing)?;
    if settle && !world.settled() {
        Ok(Outcome::Open(text))
    } else {
        Ok(Outcome::Text(text))
    }
}

/// What is told of the merge.
fn summary(end: u64, pair: &Pair) -> Summary
    ensures { (x y : Reader) → StandsFor pair.now x y → result ≡ summary_of end (reader_of (merge x y)) }
{
    let tentative = pair.tentative().len();
    Summary {
        stable: pair.stable().len() as u64,
        bound: pair.bound(),
        tentative: tentative as u64,
        settled: pair.bound() == end && tentative == 0,
    }
}

/// Appends the line with both names.
fn put_names(text: &mut Vec<u8>, first: &[u8], second: &[u8]) -> Result<(), NoMemory>
    ensures { OnOk result (text.new.items ≡ text.old.items ++ line_of (codes "pair" ∷ first.now ∷ second.now ∷ [])) }
{
    put_first(text, b"pair")?;
    put_word(text, first)?;
    put_word(text, second)?;
    text.push(b'\n')?;
    Ok(())
}

/// The one stream of two clients in the run of a world.
fn stream_text(
    alloc: Global,
    first: &[u8],
    second: &[u8],
    world: &World,
    pairing: &Pairing,
) -> Result<Vec<u8>, NoMemory>
    requires { HasTold world.now pairing.now }
    ensures { IfOk result (λ text. text.items ≡ pair_text first.now second.now world.now.plan world.now.events
        pairing.now.first pairing.now.second) }
{
    let mut text = Vec::new(alloc);
    put_names(&mut text, first, second)?;
    put_items(&mut text, pairing.items.as_slice())?;
    put_summary(
        &mut text,
        b"pair",
        &summary(world.plan().end, &pairing.pair),
    )?;
    Ok(text)
}
