//! The phases of a script, and the quiet ones behind them.
ghost use Rattle.std.specs.Prelude.{◌≡◌, ◌-◌, ◌&&◌, ◌||◌, ◌==◌, not, fold, map, max, length, nat_lt, IfOk};
ghost use Rattle.dpc_model.specs.declared.scripts.Script.{Script as PlainScript};
ghost use Rattle.world_model.specs.Schedules.{phase_of, quiet_limit};
ghost use Rattle.live_run.specs.Courses.{IsOf};

use dpc_lists::faults::NoMemory;
use dpc_lists::lists::Listed;
use dpc_model::plans::{FragSpec, Plan};
use dpc_model::scripts::{Directive, Phase};

/// The phases of a script, whether quiet ones follow, how many at most, and the clock of the last one.
#[derive(Drop)]
pub struct Timetable {
    pub phases: Listed<Phase>,
    pub settle: bool,
    pub quiet: u128,
    pub last: u64,
}

/// The most replicas of a fragment.
fn most_replicas(frags: &[FragSpec]) -> u64
    ensures { result ≡ fold max 0 (map (λ f. f.replicas) frags.now) }
{
    let mut most: u64 = 0;
    for frag in frags {
        most = most.max(frag.replicas);
    }
    most
}

/// The most quiet phases of a run: 38 is `settling_phases` of `world_model`.
fn quiet_limit(plan: &Plan) -> u128
    ensures { result ≡ quiet_limit plan.now }
{
    let frags = plan.frags.as_slice();
    (frags.len() as u128 + 1) * (most_replicas(frags) as u128 + 1) * 38
}

/// The clock of the last phase, 0 where there is none.
fn last_clock(phases: &[Phase]) -> u64
    ensures { result ≡ fold (λ _ now. now) 0 (map (λ p. p.now) phases.now) }
{
    let mut last: u64 = 0;
    for phase in phases {
        last = phase.now;
    }
    last
}

impl Timetable {
    /// Of a script with this plan.
    pub fn new(plan: &Plan, phases: Listed<Phase>, settle: bool) -> Timetable
        ensures phases { result.phases ≡ phases }
        ensures settle { result.settle ≡ settle }
        ensures quiet { result.quiet ≡ quiet_limit plan.now }
        ensures last { result.last ≡ fold (λ _ now. now) 0 (map (λ p. p.now) phases) }
    {
        Timetable {
            quiet: quiet_limit(plan),
            last: last_clock(phases.as_slice()),
            phases,
            settle,
        }
    }

    /// The directives of a phase, none of a quiet one.
    #[tactic(auto, using(crate::proofs::Phases::directives_there, crate::proofs::Phases::directives_none))]
    pub fn directives(&self, phase: u64) -> &[Directive]
        ensures { (script : PlainScript) → IsOf script self.now → result.now ≡ (phase_of script phase).directives }
    {
        match self.phases.as_slice().get(phase.saturating_sub(1) as usize) {
            Some(spec) => spec.directives.as_slice(),
            None => &[],
        }
    }

    /// The clock of a phase.
    #[tactic(auto, using(crate::proofs::Phases::clock_there, crate::proofs::Phases::clock_none))]
    fn clock(&self, phase: u64) -> u128
        ensures { (script : PlainScript) → IsOf script self.now → result ≡ (phase_of script phase).now }
    {
        let phases = self.phases.as_slice();
        match phases.get(phase.saturating_sub(1) as usize) {
            Some(spec) => spec.now as u128,
            None => self.last as u128 + phase.saturating_sub(phases.len() as u64) as u128,
        }
    }

    /// The clock of a phase, where it is in range.
    pub fn now(&self, phase: u64) -> Result<u64, NoMemory>
        ensures { IfOk result (λ now. (script : PlainScript) → IsOf script self.now → now ≡ (phase_of script phase).now) }
    {
        u64::try_from(self.clock(phase)).ok().ok_or(NoMemory)
    }

    /// Whether a phase has this clock.
    pub fn has_clock(&self, phase: u64, now: u64) -> bool
        ensures { (script : PlainScript) → IsOf script self.now → result ≡ (now == (phase_of script phase).now) }
    {
        now as u128 == self.clock(phase)
    }

    /// Whether a phase may follow this one, where all clients are settled or not.
    pub fn is_left(&self, phase: u64, settled: bool) -> bool
        ensures { (script : PlainScript) → IsOf script self.now → result ≡ (nat_lt phase (length script.phases)
            || (script.settle && not settled && nat_lt (phase - length script.phases) (quiet_limit script.plan))) }
    {
        let phases = self.phases.len() as u64;
        phase < phases
            || self.settle && !settled && ((phase.saturating_sub(phases)) as u128) < self.quiet
    }
}
