//! An event-sourced register of members, their votes and the chairs that cast them: its state is
//! the fold of its journal.
#![tactic(auto)]

mod calls;
mod changes;
mod commands;
mod kinds;
mod laws;
mod limits;
mod member_rows;
mod published;
mod refusals;
mod registers;
mod sheets;
mod stores;
mod totals;
mod values;

pub use calls::{Answer, Order};
pub use commands::{Command, MemberRow, Standing};
pub use kinds::{CommandKind, Form, Parts};
pub use laws::{cast_law, coalitions_law, opening_law, prefix_law, sheet_law};
pub use limits::{
    CHAIRS, FRONT, MAX_COMMANDS, MAX_MEMBERS, MAX_TOTAL, MAX_VOTES, SHEET_WORDS, TOTAL,
};
pub use member_rows::MemberRows;
pub use published::PublishedRegister;
pub use refusals::Refusal;
pub use registers::Register;
pub use sheets::Sheet;
pub use values::{ChairId, MemberCode, Votes};
