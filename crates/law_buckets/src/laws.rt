//! What processing buckets makes of the inputs that were processed, and of the output.
ghost use Rattle.law_buckets.specs.Laws.{ProcessedInOrder, ReadyBucketsAdvance, BucketsClose, UndoingKeepsStable};

/// What was processed lies in order of time, below the next bucket.
pub fn processed_inputs_are_in_order()
    ensures { ProcessedInOrder }
{}

/// The stable output goes on by what the ready buckets add.
pub fn ready_buckets_advance()
    ensures { ReadyBucketsAdvance }
{}

/// The tentative output goes on by what the closed buckets add.
pub fn buckets_close()
    ensures { BucketsClose }
{}

/// Without its closed buckets a node has its stable output, and no other.
pub fn undoing_keeps_stable()
    ensures { UndoingKeepsStable }
{}
