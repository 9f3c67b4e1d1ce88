//! For each public library a short function that a program can begin with.
#![tactic(auto)]

mod board_audits_caller;
mod board_report_caller;
mod board_runs_caller;
mod board_serve_caller;
mod board_share_caller;
mod board_text_caller;
mod council_core_caller;
mod half_sums_caller;
mod majority_rule_caller;
mod power_index_caller;
mod recording_io_caller;
mod swing_walk_caller;
mod two_copy_steps_caller;

pub use board_audits_caller::audit_reader;
pub use board_report_caller::run_words;
pub use board_runs_caller::replay_slice;
pub use board_serve_caller::serve_slice;
pub use board_share_caller::read_twice;
pub use board_text_caller::first_request;
pub use council_core_caller::first_sheet;
pub use half_sums_caller::subsets_of_two;
pub use majority_rule_caller::is_quorum;
pub use power_index_caller::evaluate_once;
pub use recording_io_caller::forward;
pub use swing_walk_caller::winning_of_three;
pub use two_copy_steps_caller::outputs_of;
