//! The canonical text of a script: no comment, single spaces, each source followed by its log.
#![tactic(auto)]

ghost use Rattle.std.specs.Prelude.{◌≡◌};
ghost use Rattle.dpc_model.specs.ScriptText.{upgraded};

use dpc_model::scripts::Script;

mod expressions;
mod lines;
pub mod names;
mod operators;

pub use lines::print_script;

/// The script of version 3 that says the same as this one of version 1 or 2: `passing 0` or `passing 1`
/// tells what the version told. It takes no memory.
pub fn upgrade(mut script: Script) -> Script
    ensures { result ≡ upgraded script }
{
    script.plan.version = 3;
    script
}
