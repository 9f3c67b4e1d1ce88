//! Weighted voting rules: which coalitions win, by the majorities of the Articles of Agreement.
#![tactic(auto)]

mod majorities;
mod quotas;

pub use majorities::Majority;
pub use quotas::{least_size, monotone_law, quota, quota_law, wins};
