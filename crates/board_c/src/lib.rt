//! The calls of `board.h`, for programs in C and in every language that can call C: a static
//! library.
//!
//! A call that can fail returns `DONE` or the number of a refusal. The contracts end at the calls:
//! nothing checks the program that makes them.
#![tactic(auto)]

mod answers;
mod counts;
mod ends;
mod limits;
mod lists;
mod register;
mod runs;
mod script;

pub use counts::{
    BoardMember, board_all_counts_of_sheet, board_counts_of_members, board_counts_of_sheet,
    board_counts_of_weights, members_law,
};
pub use register::{
    BoardRegister, board_register_accepted, board_register_all_counts, board_register_apply,
    board_register_check, board_register_command_at, board_register_copy, board_register_counts,
    board_register_entries, board_register_entry_at, board_register_free, board_register_member_at,
    board_register_members, board_register_publish, board_register_published, board_register_read,
    board_register_sheet, board_register_start, board_register_undo,
};
pub use runs::{board_replay, board_replay_length, board_trace, board_trace_length};
pub use script::{BoardItem, board_script};

/// The result of a call that did what it was asked.
pub const DONE: u8 = 0;
