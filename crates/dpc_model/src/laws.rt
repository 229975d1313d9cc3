//! Laws of the definitions. Each function does nothing; its contract is the law.
ghost use Rattle.std.specs.Prelude.{◌≡◌, ℕ, ◌≤◌, ◌<◌, true, false, List, length, Some, map};
ghost use Rattle.dpc_model.specs.Streams.{InOrder, cut, cut_each};
ghost use Rattle.dpc_lists.specs.Lists.{nth};
ghost use Rattle.dpc_model.specs.Operators.{output_of};
ghost use Rattle.dpc_model.specs.Fragments.{serial, fragment_value, cut_tagged, ideal_upto, IsSoundKind, AreSoundOps, AreSoundFrags, LogsInOrder, ReadBefore};
ghost use Rattle.dpc_model.specs.Reading.{Reader, Folded, fold_items};
ghost use Rattle.dpc_model.specs.Replicas.{choose, has_best_rank};
ghost use Rattle.dpc_model.specs.declared.tuples.Tuple.{Tuple};
ghost use Rattle.dpc_model.specs.declared.tuples.Tagged.{Tagged};
ghost use Rattle.dpc_model.specs.declared.tuples.Item.{Item};
ghost use Rattle.dpc_model.specs.declared.operators.OpKind.{OpKind};
ghost use Rattle.dpc_model.specs.declared.operators.OpSpec.{OpSpec};
ghost use Rattle.dpc_model.specs.declared.plans.Plan.{Plan};
ghost use Rattle.dpc_model.specs.declared.plans.FragSpec.{FragSpec};
ghost use Rattle.dpc_model.specs.declared.plans.StreamRef.{StreamRef};
ghost use Rattle.dpc_model.specs.declared.plans.StreamRef.TheVariants.{Frag};
ghost use Rattle.dpc_model.specs.declared.messages.Rank.{Rank};

/// The items that a reader took, read again from where it began, are taken whole and leave it in the
/// same state.
pub fn taken_items_read_again()
    ensures { (r : Reader) (items : List Item) (f : Folded) → fold_items r items ≡ Some f → fold_items r f.taken ≡ Some f }
{}

/// An operator's output, cut at an earlier time, is its output of the inputs cut at that time.
pub fn operators_are_causal()
    ensures { (kind : OpKind) (inputs : List (List Tuple)) (early late : ℕ) → IsSoundKind kind → early ≤ late
        → cut (output_of kind inputs late) early ≡ output_of kind (cut_each early inputs) early }
{}

/// So is a fragment's value of its inputs in serial order.
pub fn fragments_are_causal()
    ensures value { (ops : List OpSpec) (inputs : List Tagged) (early late : ℕ) → AreSoundOps ops → early ≤ late
        → cut (fragment_value ops inputs late) early ≡ fragment_value ops (cut_tagged early inputs) early }
    ensures serial { (ports : List (List Tuple)) (early : ℕ) → cut_tagged early (serial ports) ≡ serial (cut_each early ports) }
{}

/// The failure-free output up to a time, cut at an earlier one, is that up to the earlier one.
pub fn failure_free_output_is_causal()
    ensures { (plan : Plan) (s : StreamRef) (early late : ℕ) → AreSoundFrags plan.frags → early ≤ late
        → cut (ideal_upto plan s late) early ≡ ideal_upto plan s early }
{}

/// The failure-free output of a fragment is its value of the failure-free outputs that it reads.
pub fn failure_free_output_of_a_fragment()
    ensures { (plan : Plan) (f b : ℕ) (none : FragSpec) → f < length plan.frags → ReadBefore 0 plan.frags
        → ideal_upto plan (Frag f) b
        ≡ fragment_value (nth none plan.frags f).ops (serial (map (λ s. ideal_upto plan s b) (nth none plan.frags f).inputs)) b }
{}

/// The failure-free output is in order of time, where every log is.
pub fn failure_free_output_is_in_order()
    ensures { (plan : Plan) (s : StreamRef) (b : ℕ) → LogsInOrder plan → InOrder (ideal_upto plan s b) }
{}

/// A reader keeps its replica where no other has a better rank, and else takes the first of the best
/// rank.
pub fn choice_of_a_replica()
    ensures kept { (current : ℕ) (ranks : List Rank) → has_best_rank ranks current ≡ true → choose current ranks ≡ current }
    ensures best { (current : ℕ) (ranks : List Rank) → has_best_rank ranks (choose current ranks) ≡ true }
    ensures first { (current other : ℕ) (ranks : List Rank) → has_best_rank ranks current ≡ false → other < choose current ranks
        → has_best_rank ranks other ≡ false }
{}
