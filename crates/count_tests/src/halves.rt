//! A test of the lists of two halves, and of the pairs that win.
use council_core::Refusal;
use half_sums::HalfSums;
use std::alloc::Global;
use std::test::Fail;
use swing_walk::count;

// Lists the sets of sixteen chairs with one vote each.
fn fill_with_ones(half: &mut HalfSums) {
    half.rebuild(&[
        (0, 1),
        (1, 1),
        (2, 1),
        (3, 1),
        (4, 1),
        (5, 1),
        (6, 1),
        (7, 1),
        (8, 1),
        (9, 1),
        (10, 1),
        (11, 1),
        (12, 1),
        (13, 1),
        (14, 1),
        (15, 1),
    ]);
}

// The sets of eight of a half's chairs, and the pairs that win with 17 votes, with 28 votes, and
// with 16 votes and 17 chairs.
fn counted(left: &mut HalfSums, right: &mut HalfSums) -> (usize, [u64; 3]) {
    fill_with_ones(left);
    fill_with_ones(right);
    let winning = |quota: u64, least_size: u8| count(left, right, quota, least_size).winning;
    (
        left.group(8).len(),
        [winning(17, 0), winning(28, 0), winning(16, 17)],
    )
}

fn counted_in_new_halves(alloc: Global) -> Result<(usize, [u64; 3]), Refusal> {
    let (mut left, mut right) = (HalfSums::new(alloc)?, HalfSums::new(alloc)?);
    Ok(counted(&mut left, &mut right))
}

// Catches a `HalfSums::new` that answers OutOfMemory though there is memory, and a `rebuild` or a
// `count` that goes through 2^32 pairs: no contract bounds the time. The numbers are sums of
// binomial coefficients: of 2^32 coalitions 601,080,390 have 16 chairs, half of the others more.
#[test]
fn thirty_two_chairs_of_one_vote(rt: HostRuntime) -> Result<(), Fail> {
    let wanted = (12_870, [1_846_943_453, 41_449, 1_846_943_453]);
    assert!(rt; counted_in_new_halves(rt.alloc())? == wanted);
    Ok(())
}
