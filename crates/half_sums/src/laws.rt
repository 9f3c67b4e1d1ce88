//! A law about the lists that `HalfSums::rebuild` makes.
ghost use Rattle.half_sums.specs.Laws.{MaskLaw};

/// In the list of a half no mask appears twice, and each mask over the slots of its chairs appears
/// exactly once.
pub fn mask_law()
    ensures masks { MaskLaw }
{}
