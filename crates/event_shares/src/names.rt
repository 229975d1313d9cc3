//! The name of a run: which script it is of.
ghost use Rattle.dpc_model.specs.declared.scripts.Script.{Script};
ghost use Rattle.event_shares.specs.Names.{no_script};

use std::marker::Brand;
use std::sync::ledger::Ledger;

/// Which script a run is of, beside the ledger that counts its events. It adds no call; each use picks it.
pub trait RunName: Ledger {
    ghost script: { Script };
}

impl RunName for Brand {
    ghost script = { no_script };
}
