//! An engine, and the copy of its state before the tentative buckets.
ghost use Rattle.std.specs.Prelude.{◌≡◌, ◌+◌, ◌^◌, ◌<◌, ◌++◌, ◌↔◌, ℕ, List, [], true, false, Some, None, unwrap_or, is_err, is_some, IsTrue, IfOk, OnOk};
ghost use Rattle.dpc_model.specs.Engines.{Accepts, engine_value, added_output, TookAlike};
ghost use Rattle.dpc_model.specs.PartStands.{at_cursor};
ghost use Rattle.dpc_model.specs.declared.tuples.Tagged.{Tagged};

use dpc_lists::faults::NoMemory;
use dpc_model::engines::Engine;
use dpc_model::faults::StepFault;
use dpc_model::tuples::{Tagged, Tuples};
use std::alloc::Global;
use std::marker::Model;
use std::mem::replace;
use std::snapshot::Snapshot;

/// An engine, and while tentative buckets are processed the copy of its state before them. Contracts see
/// a `KeptValue`. A call that wants memory leaves it spent.
///
/// The engine can be lent, so that its buckets are processed elsewhere without a copy. While it is out,
/// contracts go on to see it as it was lent; a spare engine of the same operators stands in its place,
/// of which only `reset` makes use. Whatever else needs the engine itself wants memory then. The engine
/// comes back, behind more buckets, by `replace`.
#[derive(Drop)]
pub struct Keeper<M: Engine> {
    /// The engine, or while it is lent the spare one.
    state: M,
    /// While the engine is lent, what it was as it went.
    lent: Option<Snapshot<M>>,
    held: Option<M>,
    spent: bool,
}

impl<M: Engine> Model for Keeper<M> {
    ghost use Rattle.std.specs.Prelude.{◌≡◌, false, IfSome};
    ghost use Rattle.checkpoint_redo.specs.Keeping.{KeptValue, standing, IsLent};

    ghost Value = { KeptValue M };

    ghost view = { λ k. record { keeper = record { state = standing k.lent k.state; held = k.held }; spent = k.spent } };

    ghost invariant = { λ k. (k.spent ≡ false → (M.is_spent (standing k.lent k.state) ≡ false) × IfSome k.held (λ m. M.is_spent m ≡ false))
        × IfSome k.lent (λ was. IsLent M.width M.operators was.value k.state k.held) };
}

impl<M: Engine + Drop> Keeper<M> {
    /// The keeper of an engine. It takes no memory.
    pub fn new(state: M) -> Keeper<M>
        requires { M.is_spent state ≡ false }
        ensures { result ≡ record { keeper = record { state = state; held = None }; spent = false } }
    {
        Keeper {
            state,
            lent: None,
            held: None,
            spent: false,
        }
    }

    /// Keeps a copy of the state, before the first tentative bucket. It wants memory too where the engine is
    /// lent.
    pub fn hold(&mut self, alloc: Global) -> Result<(), StepFault>
        requires { self.old.keeper.held ≡ None }
        ensures ok { OnOk result (self.new ≡ record self.old { keeper = record self.old.keeper { held = Some self.old.keeper.state } }) }
        ensures spent { result ≡ Err StepFault.Spent ↔ self.old.spent ≡ true }
        ensures stays { IsTrue self.new.spent ↔ IsTrue (is_err result) }
    {
        if self.spent {
            return Err(StepFault::Spent);
        }
        if self.lent.is_some() {
            self.spent = true;
            return Err(StepFault::NoMemory);
        }
        let Ok(copy) = self.state.copy(alloc) else {
            self.spent = true;
            return Err(StepFault::NoMemory);
        };
        self.held = Some(copy);
        Ok(())
    }

    /// Processes the next bucket. A copy that is held stays. It wants memory too where the engine is lent.
    pub fn ahead(&mut self, alloc: Global, inputs: &[Tagged], k: u64) -> Result<Tuples, StepFault>
        requires next { k ≡ M.next self.old.keeper.state }
        requires range { k + 1 < 2 ^ 64 }
        requires accepts { Accepts (M.width self.old.keeper.state) k inputs.now }
        ensures answer { IfOk result (λ out. (before : List Tagged) → M.after self.old.keeper.state before k
            → out ≡ added_output (engine_value (M.operators self.old.keeper.state))
            (unwrap_or (M.width self.old.keeper.state) 0) before inputs.now k) }
        ensures after { OnOk result ((before : List Tagged) → M.after self.old.keeper.state before k
            → M.after self.new.keeper.state (before ++ inputs.now) (k + 1)) }
        ensures next { OnOk result (M.next self.new.keeper.state ≡ k + 1) }
        ensures fresh { OnOk result (M.is_spent self.new.keeper.state ≡ false) }
        ensures spent { result ≡ Err StepFault.Spent ↔ self.old.spent ≡ true }
        ensures stays { IsTrue self.new.spent ↔ IsTrue (is_err result) }
        ensures held { self.new.keeper.held ≡ self.old.keeper.held }
        ensures operators { M.operators self.new.keeper.state ≡ M.operators self.old.keeper.state }
        ensures width { M.width self.new.keeper.state ≡ M.width self.old.keeper.state }
    {
        if self.spent {
            return Err(StepFault::Spent);
        }
        if self.lent.is_some() {
            self.spent = true;
            return Err(StepFault::NoMemory);
        }
        let Ok(output) = self.state.bucket(alloc, inputs, k) else {
            self.spent = true;
            return Err(StepFault::NoMemory);
        };
        Ok(output)
    }

    /// Goes back to the copy, which is then not held any more. It takes no memory.
    pub fn restore(&mut self)
        ensures held { (m : M) → self.old.keeper.held ≡ Some m → self.new ≡ record self.old { keeper = record { state = m; held = None } } }
        ensures none { self.old.keeper.held ≡ None → self.new ≡ self.old }
    {
        if let Some(copy) = self.held.take() {
            self.state = copy;
        }
    }

    /// Lends the engine, and keeps a spare one of the same operators in its place. What contracts see of
    /// the keeper stays. It takes no memory; as if it wanted some it answers where a copy is held, or the
    /// engine is lent already.
    pub fn lend(&mut self, spare: M) -> Result<M, StepFault>
        requires same { (M.operators spare ≡ M.operators self.old.keeper.state) × (M.width spare ≡ M.width self.old.keeper.state) }
        ensures ok { IfOk result (λ m. m ≡ at_cursor self.old.keeper) }
        ensures fresh { IfOk result (λ m. M.is_spent m ≡ false) }
        ensures stays { self.new ≡ self.old }
        ensures spent { result ≡ Err StepFault.Spent ↔ self.old.spent ≡ true }
    {
        if self.spent {
            return Err(StepFault::Spent);
        }
        if self.held.is_some() || self.lent.is_some() {
            return Err(StepFault::NoMemory);
        }
        self.lent = Some(Snapshot::of(&self.state));
        let engine = replace(&mut self.state, spare);
        Ok(engine)
    }

    /// Goes on from another state. If the engine was lent, that is over. It takes no memory.
    pub fn replace(&mut self, after: M)
        requires { M.is_spent after ≡ false }
        ensures { self.new ≡ record self.old { keeper = record self.old.keeper { state = after } } }
    {
        self.state = after;
        self.lent = None;
    }

    /// Begins anew before bucket 0, with no copy, and if the engine was lent, with the spare one. It takes no
    /// memory.
    pub fn reset(&mut self)
        ensures after { M.after self.new.keeper.state [] 0 }
        ensures next { M.next self.new.keeper.state ≡ 0 }
        ensures fresh { M.is_spent self.new.keeper.state ≡ false }
        ensures held { self.new.keeper.held ≡ None }
        ensures operators { M.operators self.new.keeper.state ≡ M.operators self.old.keeper.state }
        ensures width { M.width self.new.keeper.state ≡ M.width self.old.keeper.state }
        ensures spent { self.new.spent ≡ self.old.spent }
    {
        self.state.reset();
        self.lent = None;
        self.held = None;
    }

    /// A copy of the state before the tentative buckets. It wants memory too where the engine is lent.
    pub fn stand(&self, alloc: Global) -> Result<M, StepFault>
        ensures ok { IfOk result (λ m. m ≡ at_cursor self.now.keeper) }
        ensures fresh { IfOk result (λ m. M.is_spent m ≡ false) }
        ensures spent { result ≡ Err StepFault.Spent ↔ self.now.spent ≡ true }
    {
        if self.spent {
            return Err(StepFault::Spent);
        }
        if self.lent.is_some() {
            return Err(StepFault::NoMemory);
        }
        let copy = match &self.held {
            Some(copy) => copy.copy(alloc),
            None => self.state.copy(alloc),
        };
        match copy {
            Ok(copy) => Ok(copy),
            Err(_) => Err(StepFault::NoMemory),
        }
    }

    /// Whether the state before the tentative buckets is this one. What an unspent engine is made of, and what it
    /// took, determines its state. It wants memory where the engine is lent: nothing can be compared then.
    pub fn same(&self, state: &M) -> Result<bool, NoMemory>
        ensures same { IfOk result (λ told. IsTrue told ↔ (at_cursor self.now.keeper ≡ state.now)) }
        ensures determined { IfOk result (λ told. (xs : List Tagged) (k : ℕ)
            → TookAlike M.width M.operators M.is_spent M.after (at_cursor self.now.keeper) state.now xs k
            → at_cursor self.now.keeper ≡ state.now) }
    {
        if self.lent.is_some() {
            return Err(NoMemory);
        }
        let told = match &self.held {
            Some(copy) => copy.same(state),
            None => self.state.same(state),
        };
        Ok(told)
    }

    /// Whether a copy is held. It takes no memory.
    pub fn is_held(&self) -> bool
        ensures { result ≡ is_some self.now.keeper.held }
    {
        self.held.is_some()
    }
}
