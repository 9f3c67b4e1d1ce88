//! The indices of a sheet, from the lists of its two halves.
ghost use Rattle.std.specs.Prelude.{◌≡◌, ℕ, ◌≤◌, ◌↔◌, IsTrue};
ghost use Rattle.majority_rule.specs.Winning.{wins};
ghost use Rattle.power_index.specs.Halves.{AreHalves};
ghost use Rattle.power_index.specs.Tallies.{IsSwingTally};
ghost use Rattle.power_index.specs.Indices.{AreIndices, indices_of};

use crate::halves::in_order;
use crate::indices::{Fraction, Indices};
use crate::rows::{SwingTally, coalition_count, rows};
use council_core::Sheet;
use half_sums::SumList;
use majority_rule::{Majority, least_size, quota};
use swing_walk::{count_lists, swings};

// The indices of a sheet under a majority, from the lists of its two halves.
pub(crate) fn indices_from(
    sheet: &Sheet,
    left: &SumList,
    right: &SumList,
    majority: Majority,
) -> Indices
    requires halves { AreHalves sheet.now left.now right.now }
    ensures exact { AreIndices majority sheet.now result }
    ensures same { result ≡ indices_of majority sheet.now }
{
    let quota = quota(majority, sheet);
    let least_size = least_size(majority, sheet);
    let tally = tally(sheet, left, right, majority, quota, least_size);
    let chairs = sheet.chairs();
    let coalitions = coalition_count(chairs);
    Indices {
        majority,
        front: sheet.front(),
        chairs,
        quota,
        least_size,
        cast: sheet.cast(),
        total: sheet.total(),
        winning: tally.winning,
        coalitions,
        act: Fraction {
            num: tally.winning,
            den: coalitions,
        },
        rows: rows(sheet, &tally),
    }
}

// The number of winning coalitions of the sheet, and the swings of its open chairs, by the quota
// and the least size of a majority.
fn tally(
    sheet: &Sheet,
    left: &SumList,
    right: &SumList,
    majority: Majority,
    quota: u64,
    least_size: u8,
) -> SwingTally
    requires halves { AreHalves sheet.now left.now right.now }
    requires quota { (w k : ℕ) → ((quota ≤ w) × (least_size ≤ k)) ↔ IsTrue (wins majority sheet.now w k) }
    ensures counts { IsSwingTally sheet.now result }
    ensures majority { result.majority ≡ majority }
{
    let counts = count_lists(left, right, quota, least_size);
    let by_place = swings(&counts);
    SwingTally {
        majority,
        winning: counts.winning,
        swings: in_order(sheet.chairs(), &by_place),
    }
}
