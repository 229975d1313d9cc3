//! A script: a plan, and what happens in each phase.
use crate::plans::Plan;
use dpc_lists::lists::Listed;

#[derive(Clone, Copy, PartialEq, Eq)]
pub enum Directive {
    Emit(u64, u64),
    Release(u64, u64),
    Cut(u64, u64),
    Heal(u64, u64),
    Lose(u64, u64),
    Repeat(u64, u64),
    Crash(u64),
    Restart(u64),
}

#[derive(Drop)]
pub struct Phase {
    pub directives: Listed<Directive>,
    pub now: u64,
}

#[derive(Drop)]
pub struct Script {
    pub plan: Plan,
    pub phases: Listed<Phase>,
    pub settle: bool,
}
