//! Subset sums by meeting in the middle (Horowitz and Sahni 1974): the sets of a half of up to
//! sixteen chairs, ascending by weight.
#![tactic(auto)]

mod choices;
mod entry;
mod groups;
mod laws;
mod lists;
mod merge;
mod ordered;
mod sums;

pub use choices::{either, part, size};
pub use entry::Entry;
pub use groups::{SIZES, SLOTS, STARTS, starts_of};
pub use laws::mask_law;
pub use lists::{ROOM, SumList};
pub use ordered::{OrderedSums, list_subsets};
pub use sums::HalfSums;
