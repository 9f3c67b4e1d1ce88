//! What a program in C and the library's calls exchange: members, commands and counts as plain
//! structs, and what each struct means.
//!
//! A name with `_of` reads what a caller in C gives, as `command_of`, and one with `_for` makes what
//! a caller gets, as `command_for`.
#![tactic(auto)]

mod codes;
mod commands;
mod counts;
mod entries;

pub use commands::{BoardCommand, PUBLISH, READ, command_for, command_of};
pub use counts::{BoardAllCounts, BoardChair, BoardCounts, all_counts_for, counts_by_number};
pub use entries::{BoardEntry, BoardMemberRow, entry_for, opening_of, row_for};
