//! The rows of the open chairs.
ghost use Rattle.std.specs.Prelude.{◌≡◌, ◌^◌, ◌≤◌, length, sum_by, All};
ghost use Rattle.council_core.specs.Sheets.{open_chairs};
ghost use Rattle.majority_rule.specs.Winning.{rule_of};
ghost use Rattle.power_index.specs.Indices.{ratio_unless_zero, power_of, rows_among};
ghost use Rattle.power_index.specs.Tallies.{IsSwingTally};

use crate::indices::{ChairPower, Fraction};
use arrayvec::ArrayVec;
use council_core::{CHAIRS, ChairId, Sheet};
use majority_rule::Majority;

// The number of winning coalitions of a sheet under a majority, and the swings of its open chairs,
// in ascending order of the chairs' numbers.
#[derive(Drop)]
pub(crate) struct SwingTally {
    pub(crate) majority: Majority,
    pub(crate) winning: u64,
    pub(crate) swings: ArrayVec<u64, CHAIRS>,
}

// The numbers that all rows of a sheet share: open chairs, winning coalitions, and the sum of all
// swings.
#[derive(Clone, Copy)]
struct Totals {
    chairs: u8,
    winning: u64,
    swings: u64,
}

// The number of coalitions of `chairs` chairs.
pub(crate) fn coalition_count(chairs: u8) -> u64
    requires chairs { chairs ≤ CHAIRS }
    ensures same { result ≡ 2 ^ chairs }
    ensures bound { result ≤ 2 ^ 32 }
{
    1 << chairs
}

// A fraction, or `None` if its denominator is 0.
fn unless_zero(num: u64, den: u64) -> Option<Fraction>
    ensures ratio { result ≡ ratio_unless_zero num den }
{
    if den == 0 {
        None
    } else {
        Some(Fraction { num, den })
    }
}

// The row of a chair, given with its weight.
fn row(totals: &Totals, chair: (ChairId, u64), swings: u64) -> ChairPower
    requires chairs { totals.now.chairs ≤ CHAIRS }
    requires winning { totals.now.winning ≤ 2 ^ totals.now.chairs }
    ensures power { result ≡ power_of totals.now.chairs totals.now.winning totals.now.swings swings chair }
{
    ChairPower {
        chair: chair.0,
        weight: chair.1,
        swings,
        banzhaf: Fraction {
            num: swings,
            den: coalition_count(totals.chairs.saturating_sub(1)),
        },
        share: unless_zero(swings, totals.swings),
        prevent: unless_zero(swings, totals.winning),
        initiate: Fraction {
            num: swings,
            den: coalition_count(totals.chairs) - totals.winning,
        },
    }
}

// The sum of the swings of all open chairs.
fn swing_sum(swings: &[u64]) -> u64
    requires bound { length swings.now ≤ CHAIRS }
    requires small { All (λ n. n ≤ 2 ^ CHAIRS) swings.now }
    ensures sum { result ≡ sum_by (λ n. n) swings.now }
{
    let mut sum = 0;
    for swings_of_chair in swings {
        sum += *swings_of_chair;
    }
    sum
}

// A row for each open chair, in ascending order of the chairs' numbers.
pub(crate) fn rows(sheet: &Sheet, tally: &SwingTally) -> ArrayVec<ChairPower, CHAIRS>
    requires tally { IsSwingTally sheet.now tally.now }
    ensures rows { result.items
        ≡ rows_among (rule_of tally.now.majority sheet.now) (open_chairs sheet.now) (open_chairs sheet.now) }
{
    let chairs = sheet.open_chairs();
    let totals = Totals {
        chairs: chairs.len() as u8,
        winning: tally.winning,
        swings: swing_sum(tally.swings.as_slice()),
    };
    let mut rows = ArrayVec::new();
    for i in 0..chairs.len() {
        rows.push(row(&totals, chairs[i], tally.swings[i]));
    }
    rows
}
