//! The Banzhaf and Coleman indices of voting power of a sheet, exactly, over all coalitions of its
//! open chairs.
//!
//! An [`Evaluator`] holds one sheet and the ordered subset sums of the two halves of its open
//! chairs. A new sheet rebuilds only the halves whose weights differ, and an evaluation is one walk
//! over the two lists (Horowitz and Sahni 1974). So 32 chairs cost two lists of 65,536 sums instead
//! of 2^32 coalitions, and 24 chairs cost two lists of 4,096.
#![tactic(auto)]

mod evaluator;
mod halves;
mod indices;
mod laws;
mod lent;
mod listed;
mod rows;

pub use evaluator::Evaluator;
pub use indices::{ChairPower, Fraction, Indices};
pub use laws::evaluation_law;
pub use lent::{LentEvaluator, ListRoom};
