//! The law on which the proof of an evaluation relies.
ghost use Rattle.power_index.specs.Counts.{EvaluationLaw};

/// The pairs of sets of the two halves of a sheet are the coalitions of its open chairs, each once.
/// So their counts give omega and the swings of each chair, and meet the requirements of `swings`.
pub fn evaluation_law()
    ensures counts { EvaluationLaw }
{}
