//! A caller of `majority_rule`.
ghost use Rattle.std.specs.Prelude.{◌≡◌};
ghost use Rattle.majority_rule.specs.Winning.{wins};
ghost use Rattle.majority_rule.specs.declared.majorities.Majority.TheVariants.{Quorum};

use council_core::Sheet;
use majority_rule::{Majority, least_size, quota};

/// Returns whether `chairs` chairs with `weight` votes in total form a quorum.
pub fn is_quorum(sheet: &Sheet, weight: u64, chairs: u8) -> bool
    ensures wins { result ≡ wins Quorum sheet.now weight chairs }
{
    quota(Majority::Quorum, sheet) <= weight && least_size(Majority::Quorum, sheet) <= chairs
}
