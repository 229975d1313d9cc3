//! A checked script has all that settling wants of it.
#![tactic(auto)]

ghost use Rattle.dpc_model.specs.declared.scripts.Script.{Script};
ghost use Rattle.script_rules.specs.Checking.{IsChecked};
ghost use Rattle.law_readers.specs.Settling.{CanSettle};

/// So the laws of settling hold of every checked script, with no premise of their own.
pub fn a_checked_script_can_settle()
    ensures { (s : Script) → IsChecked s → CanSettle s }
{}
