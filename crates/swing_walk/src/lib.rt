//! Counts, with two pointers, the pairs of a set of the left half and one of the right that reach a
//! quota and a least size and, for each chair, the number of these pairs that have it.
#![tactic(auto)]

mod laws;
mod pairs;
mod partners;
mod positions;
mod sides;
mod sizes;
mod tally;
mod walking;

pub use laws::{count_law, pair_law, swing_law, two_halves_law};
pub use pairs::{Counts, count, count_lists, swings};
