//! A caller of `half_sums`.
ghost use Rattle.std.specs.Prelude.{◌+◌, ◌^◌, ◌≤◌, ◌∷◌, [], IfOk, IsOkUnless};
ghost use Rattle.council_core.specs.declared.refusals.Refusal.TheVariants.{OutOfMemory};
ghost use Rattle.half_sums.specs.Entries.{AreSubsets};

use council_core::Refusal;
use half_sums::OrderedSums;
use std::alloc::Global;

/// Lists the subsets of two chairs with `first` and `second` votes, ascending by weight. Out of memory is the only
/// refusal.
pub fn subsets_of_two(alloc: Global, first: u64, second: u64) -> Result<OrderedSums, Refusal>
    requires { first + second ≤ 2 ^ 48 }
    ensures subsets { IfOk result (λ sums. AreSubsets ((0, first) ∷ (1, second) ∷ []) sums) }
    ensures memory { IsOkUnless result OutOfMemory }
{
    let mut sums = OrderedSums::new(alloc)?;
    sums.rebuild(&[(0, first), (1, second)]);
    Ok(sums)
}
