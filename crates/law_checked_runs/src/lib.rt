//! The plan of a script that is read or checked can be run and reported: the engine asks nothing more of it.
#![tactic(auto)]

ghost use Rattle.std.specs.Prelude.{◌≡◌, ℕ, List, Some};
ghost use Rattle.dpc_model.specs.declared.scripts.Script.{Script};
ghost use Rattle.script_rules.specs.Reading.{read};
ghost use Rattle.script_rules.specs.Checking.{IsChecked};
ghost use Rattle.client_reports.specs.Json.{HasPlainNames};
ghost use Rattle.law_fit.specs.Fits.{CanRun};

/// So is that of the script that a text is read as.
pub fn what_is_read_can_run()
    ensures { (text : List ℕ) (s : Script) → read text ≡ Some s → CanRun s.plan }
{}

/// And that of each checked script.
pub fn a_checked_script_can_run()
    ensures { (s : Script) → IsChecked s → CanRun s.plan }
{}

/// The JSON report can tell the names of what is read.
pub fn what_is_read_has_plain_names()
    ensures { (text : List ℕ) (s : Script) → read text ≡ Some s → HasPlainNames s.plan }
{}
