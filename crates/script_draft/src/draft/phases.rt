//! Lines from `begin` on.
ghost use Rattle.std.specs.Prelude.{◌≡◌, ℕ, Some, None, false, fold, filter, not, ◌==◌, map, unwrap_or, IfOk, OnOk, OnErr};
ghost use Rattle.dpc_model.specs.Words.{Word};
ghost use Rattle.dpc_lists.specs.Lists.{is_nil, list_any, last_or};
ghost use Rattle.dpc_model.specs.declared.plans.FragSpec.{FragSpec};
ghost use Rattle.dpc_model.specs.declared.scripts.Directive.{Directive};
ghost use Rattle.dpc_model.specs.declared.scripts.Phase.{Phase};
ghost use Rattle.script_rules.specs.Statements.{BeginLine, SendLine, LinkLine, NodeLine, TickLine, SettleLine};
ghost use Rattle.script_rules.specs.Drafts as spec;
ghost use Rattle.script_rules.specs.Reasons.{first_of_tests, tests_said, all_directives, down_after, last_clock};
ghost use Rattle.script_draft.specs.Caches.{fault_in};

use crate::draft::Draft;
use crate::draft::actors::is_node;
use crate::ends::clock_of;
use crate::fragments::has_empty;
use crate::limits::MOST_PHASES;
use dpc_lists::faults::NoMemory;
use dpc_lists::lists::Listed;
use dpc_model::scripts::{Directive, Phase};
use script_rules::reasons::Reason;
use std::alloc::Global;
use std::mem;

/// Lets a number go, wherever it stands.
fn remove(numbers: &mut Vec<u64>, number: u64)
    ensures { numbers.new.items ≡ filter (λ n. not (n == number)) numbers.old.items }
{
    numbers.retain(|n| *n != number);
}

impl Draft {
    /// The least reason against the beginning of the phases.
    pub fn fault_of_begin(&self) -> Option<Reason>
        ensures { result ≡ first_of_tests (tests_said self.now BeginLine) }
    {
        let lacks_part = self.sources.is_empty()
            || self.frags.is_empty()
            || self.clients.is_empty()
            || has_empty(self.frags.as_slice());
        if lacks_part {
            Some(Reason::PartMissing)
        } else {
            None
        }
    }

    /// The beginning of the phases.
    pub fn add_begin(&mut self)
        ensures { self.new ≡ spec.and_then self.old BeginLine }
    {
        self.begun = true;
    }

    /// The source that a line sends from, or the least reason against the line.
    pub fn source_of_send(&self, source: &[u8]) -> Result<u64, Reason>
        ensures found { IfOk result (λ s. spec.source_named self.now source.now ≡ Some s) }
        ensures fault { (make : ℕ → ℕ → Directive) → (time : ℕ)
            → fault_in result ≡ first_of_tests (tests_said self.now (SendLine make source.now time)) }
    {
        match self.source_named(source) {
            Some(source) => Ok(source),
            None => Err(Reason::Unknown),
        }
    }

    /// The node that a line crashes or restarts, or the least reason against the line.
    pub fn node_of_line(&self, crash: bool, node: &[u8]) -> Result<u64, Reason>
        ensures found { IfOk result (λ a. spec.actor_named self.now node.now ≡ Some a) }
        ensures fault { fault_in result ≡ first_of_tests (tests_said self.now (NodeLine crash node.now)) }
    {
        let Some(actor) = self.actor(node) else {
            return Err(Reason::Unknown);
        };
        if !is_node(actor.role) {
            Err(Reason::Unknown)
        } else if self.is_down(actor.number) == crash {
            Err(Reason::AgainstState)
        } else {
            Ok(actor.number)
        }
    }

    /// Whether the node of that number is down.
    fn is_down(&self, node: u64) -> bool
        ensures { result ≡ fold (down_after node) false (all_directives self.now) }
    {
        self.down.contains(&node)
    }

    /// A further directive.
    pub fn add_directive(&mut self, directive: Directive) -> Result<(), NoMemory>
        ensures ok { OnOk result (self.new ≡ spec.with_directive self.old directive) }
        ensures err { OnErr result (self.new ≡ self.old) }
    {
        match directive {
            Directive::Crash(node) => self.add_crash(node),
            Directive::Restart(node) => {
                self.directives.push(directive)?;
                remove(&mut self.down, node);
                Ok(())
            }
            _ => {
                self.directives.push(directive)?;
                Ok(())
            }
        }
    }

    /// The crash of a node.
    fn add_crash(&mut self, node: u64) -> Result<(), NoMemory>
        ensures ok { OnOk result (self.new ≡ spec.with_directive self.old (Directive.Crash node)) }
        ensures err { OnErr result (self.new ≡ self.old) }
    {
        self.down.push(node)?;
        if self.directives.push(Directive::Crash(node)).is_err() {
            self.down.pop();
            return Err(NoMemory);
        }
        Ok(())
    }

    /// The least reason against a tick.
    pub fn fault_of_tick(&self, now: u64) -> Option<Reason>
        ensures { result ≡ first_of_tests (tests_said self.now (TickLine now)) }
    {
        if now < self.last_clock() {
            Some(Reason::AgainstState)
        } else if self.phases.len() >= MOST_PHASES {
            Some(Reason::PastLimit)
        } else {
            None
        }
    }

    /// The clock of the last phase, and 0 where there is none.
    fn last_clock(&self) -> u64
        ensures { result ≡ last_clock self.now }
    {
        clock_of(self.phases.as_slice())
    }

    /// A tick: the directives before it are a phase.
    pub fn add_tick(&mut self, alloc: Global, now: u64) -> Result<(), NoMemory>
        ensures ok { OnOk result (self.new ≡ spec.and_then self.old (TickLine now)) }
        ensures err { OnErr result (self.new ≡ self.old) }
    {
        let directives = mem::replace(&mut self.directives, Vec::new(alloc));
        let directives = Listed::from_vec(directives);
        match self.phases.push(Phase { directives, now }) {
            Ok(()) => Ok(()),
            Err(failed) => {
                self.directives = failed.value.directives.into_vec();
                Err(NoMemory)
            }
        }
    }

    /// The end of a script by settling. No reason stands against what it says.
    pub fn add_settle(&mut self)
        ensures after { self.new ≡ spec.and_then self.old SettleLine }
        ensures faultless { first_of_tests (tests_said self.old SettleLine) ≡ None }
    {
        self.settle = true;
    }
}
