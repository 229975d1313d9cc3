//! What a verdict says.
ghost use Rattle.std.specs.Prelude.{◌≡◌, ℕ, List, Ok, Err};
ghost use Rattle.dpc_model.specs.declared.plans.Plan.{Plan};
ghost use Rattle.dpc_model.specs.declared.plans.StreamRef.{StreamRef};
ghost use Rattle.dpc_model.specs.declared.tuples.Item.{Item};
ghost use Rattle.ideal_run.specs.IdealPlans.{IsIdealPlan};
ghost use Rattle.audit_core.specs.Audits.{audited};
ghost use Rattle.audit_core.specs.Meanings.{Says, IsFirstWithout};
ghost use Rattle.audit_core.specs.declared.verdict.Verdict.{Verdict};

/// A verdict is on a stream of which each item has a reading. What it says of it is so: the stream is the failure-free
/// one; or a beginning of it that lacks no tuple below its bound; or the first difference stands where it is told.
pub fn a_verdict_says_what_is_so()
    ensures { (plan : Plan) (stream : StreamRef) (items : List Item) (v : Verdict) → IsIdealPlan plan
        → audited plan stream items ≡ Ok v → Says plan stream items v }
{}

/// Where there is none, that item is the first that has no reading.
pub fn a_refusal_names_the_first_item_without_a_reading()
    ensures { (plan : Plan) (stream : StreamRef) (items : List Item) (n : ℕ) → audited plan stream items ≡ Err n → IsFirstWithout items n }
{}
