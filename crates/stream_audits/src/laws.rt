//! What a verdict says.
ghost use Rattle.std.specs.Prelude.{◌≡◌, ℕ, List, Ok};
ghost use Rattle.audit_core.specs.declared.verdict.Verdict.{Verdict};
ghost use Rattle.input_parts.specs.declared.notation.Notation.{Notation};
ghost use Rattle.stream_audits.specs.Judging.{IsJudged, judged_input};

/// A verdict is on the items that were recorded of a client of the script, and what it says of them, beside the failure-free stream that
/// the client reads, is so.
pub fn a_verdict_says_what_is_so()
    ensures { (notation : Notation) (input : List ℕ) (v : Verdict) → judged_input notation input ≡ Ok v → IsJudged notation input v }
{}
