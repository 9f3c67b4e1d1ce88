//! Audits: checks a journal, its cuts and the sheets that readers returned.
#![tactic(auto)]

mod audits;
mod laws;

pub use audits::{AuditFault, audit};
pub use laws::{audit_fault_laws, audit_law};
