//! A caller of `swing_walk`.
ghost use Rattle.std.specs.Prelude.{◌≡◌, ◌∷◌, [], IfOk};
ghost use Rattle.council_core.specs.Coalitions.{omega_of, threshold_rule};
ghost use Rattle.swing_walk.specs.Laws.{board_of};

use council_core::Refusal;
use half_sums::HalfSums;
use std::alloc::Global;
use swing_walk::{count, pair_law};

/// Counts the coalitions with at least `quota` votes among three chairs of 50, 49 and 1 votes. Two of the chairs are in
/// the left half and one is in the right half.
pub fn winning_of_three(alloc: Global, quota: u64) -> Result<u64, Refusal>
    ensures omega { IfOk result
        (λ n. n ≡ omega_of (threshold_rule quota 0) (board_of ((0, 50) ∷ (1, 49) ∷ []) ((0, 1) ∷ []))) }
{
    let (mut left, mut right) = (HalfSums::new(alloc)?, HalfSums::new(alloc)?);
    left.rebuild(&[(0, 50), (1, 49)]);
    right.rebuild(&[(0, 1)]);
    pair_law();
    Ok(count(&left, &right, quota, 0).winning)
}
