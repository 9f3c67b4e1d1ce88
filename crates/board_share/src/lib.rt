//! The running board: left-right publication by one writer to several readers, each in a separate
//! thread, over two copies of a sheet in shared atomic words.
#![tactic(auto)]

mod analysts;
mod laws;
mod opening;
mod reader_steps;
mod readers;
mod rule;
mod views;
mod writer_steps;
mod writers;

pub use analysts::Analyst;
pub use board_audits::{AuditFault, audit, audit_fault_laws, audit_law};
pub use laws::{headline_law, rule_laws, seat_laws};
pub use opening::start;
pub use readers::{Reader, Reading};
pub use rule::{Board, TwoCopies};
pub use views::{Members, ShareStart, View};
pub use writers::{Busy, Writer};
