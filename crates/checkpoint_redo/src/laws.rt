//! What buckets add to the output. The function does nothing; its contract is the law.
ghost use Rattle.checkpoint_redo.specs.Laws.{BucketsAdd};

/// The output of a fragment with some more buckets is its output before them, and what they add.
pub fn buckets_add_to_the_output()
    ensures { BucketsAdd }
{}
