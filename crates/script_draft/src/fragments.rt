//! What fragments have.
ghost use Rattle.std.specs.Prelude.{◌≡◌, flat_map};
ghost use Rattle.dpc_lists.specs.Lists.{is_nil, list_any};
ghost use Rattle.dpc_model.specs.declared.plans.FragSpec.{FragSpec};
ghost use Rattle.script_rules.specs.Drafts.{op_names};
ghost use Rattle.script_rules.specs.Reasons.{is_among};

use crate::named::has_name;
use dpc_model::plans::FragSpec;

/// Whether an operator of these fragments has that name.
pub fn has_operator(name: &[u8], frags: &[FragSpec]) -> bool
    ensures { result ≡ is_among name.now (flat_map op_names frags.now) }
{
    for frag in frags {
        if has_name(name, frag.ops.as_slice()) {
            return true;
        }
    }
    false
}

/// Whether some fragment has no operator.
pub fn has_empty(frags: &[FragSpec]) -> bool
    ensures { result ≡ list_any (λ (f : FragSpec). is_nil f.ops) frags.now }
{
    for frag in frags {
        if frag.ops.is_empty() {
            return true;
        }
    }
    false
}
