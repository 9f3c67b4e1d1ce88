//! The halves of a sheet: the first half of its open chairs, by number, is on the left, and the
//! others are on the right.
ghost use Rattle.std.specs.Prelude.{◌≡◌, ◌+◌, ◌<◌, ◌≤◌, ℕ, not, length, sum_by, slice_index};
ghost use Rattle.std.specs.List.{enumerate_from};
ghost use Rattle.council_core.specs.declared.limits.TheConstants.{MAX_TOTAL};
ghost use Rattle.council_core.specs.Sheets.{open_chairs};
ghost use Rattle.half_sums.specs.Entries.{AreSubsets};
ghost use Rattle.power_index.specs.Halves.{weights, left_count, place_in_counts, same_block, one_if};

use arrayvec::ArrayVec;
use council_core::{CHAIRS, SHEET_WORDS, Sheet};
use half_sums::{OrderedSums, SLOTS};

// The weights of the open chairs, in ascending order of the chairs' numbers.
pub(crate) fn weights_of(sheet: &Sheet) -> ArrayVec<u64, CHAIRS>
    ensures weights { result.items ≡ weights sheet.now }
    ensures count { length result.items ≡ length (open_chairs sheet.now) }
{
    let chairs = sheet.open_chairs();
    let mut weights = ArrayVec::new();
    for i in 0..chairs.len() {
        weights.push(chairs[i].1);
    }
    weights
}

// The size of the left half of `chairs` open chairs.
pub(crate) fn on_left(chairs: usize) -> usize
    requires bound { chairs ≤ CHAIRS }
    ensures half { result ≡ left_count chairs }
{
    chairs.div_ceil(2)
}

// The chairs with these weights, at the slots from 0 on.
pub(crate) fn chairs_of(weights: &[u64]) -> ArrayVec<(u8, u64), SLOTS>
    requires bound { length weights.now ≤ SLOTS }
    ensures chairs { result.items ≡ enumerate_from 0 weights.now }
{
    let mut chairs = ArrayVec::new();
    for slot in 0..weights.len() {
        chairs.push((slot as u8, weights[slot]));
    }
    chairs
}

// 1 if the words of the sixteen chairs from index `from` on differ, otherwise 0.
pub(crate) fn differ(old: &[u64; SHEET_WORDS], new: &[u64; SHEET_WORDS], from: usize) -> u8
    requires from { from ≤ SLOTS }
    ensures bound { result ≤ 1 }
    ensures changed { result ≡ one_if (not (same_block from old.now new.now)) }
{
    if old[from..from + SLOTS] == new[from..from + SLOTS] {
        0
    } else {
        1
    }
}

// Rebuilds a half if its weights differ.
pub(crate) fn refresh(half: &mut OrderedSums, old: &[u64], new: &[u64])
    requires bound { length new.now ≤ SLOTS }
    requires small { sum_by (λ n. n) new.now ≤ MAX_TOTAL }
    requires before { AreSubsets (enumerate_from 0 old.now) half.old }
    ensures after { AreSubsets (enumerate_from 0 new.now) half.new }
{
    if old == new {
        return;
    }
    half.rebuild(chairs_of(new).as_slice());
}

// The items of `by_place` at the places of the open chairs, in the order of the chairs.
pub(crate) fn in_order(chairs: u8, by_place: &[u64; CHAIRS]) -> ArrayVec<u64, CHAIRS>
    requires bound { chairs ≤ CHAIRS }
    ensures count { length result.items ≡ chairs }
    ensures each { (i : ℕ) → i < chairs
        → slice_index result.items i ≡ slice_index by_place.now (place_in_counts (left_count chairs) i) }
{
    let half = on_left(usize::from(chairs));
    let mut ordered = ArrayVec::new();
    for i in 0..usize::from(chairs) {
        ordered.push(by_place[place_in_counts(half, i)]);
    }
    ordered
}

// The place in the counts of the open chair with `before` open chairs before it.
fn place_in_counts(half: usize, before: usize) -> usize
    requires half { half ≤ SLOTS }
    requires before { before < half + SLOTS }
    ensures place { result ≡ place_in_counts half before }
    ensures within { result < CHAIRS }
{
    if before < half {
        before
    } else {
        SLOTS + (before - half)
    }
}
