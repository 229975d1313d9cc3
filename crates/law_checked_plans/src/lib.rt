//! The plan of a script that is read or checked is a checked plan, of which every run is safe.
#![tactic(auto)]

ghost use Rattle.std.specs.Prelude.{◌≡◌, ℕ, List, Some};
ghost use Rattle.dpc_model.specs.declared.scripts.Script.{Script};
ghost use Rattle.script_rules.specs.Reading.{read};
ghost use Rattle.script_rules.specs.Checking.{IsChecked};
ghost use Rattle.law_safety.specs.Plans.{IsCheckedPlan};

/// So all laws of every run hold of the script that a text is read as.
pub fn what_is_read_has_a_checked_plan()
    ensures { (text : List ℕ) (s : Script) → read text ≡ Some s → IsCheckedPlan s.plan }
{}

/// And of each checked script.
pub fn a_checked_script_has_a_checked_plan()
    ensures { (s : Script) → IsChecked s → IsCheckedPlan s.plan }
{}
