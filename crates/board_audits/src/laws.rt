//! Laws of audits, stated as contracts of functions with empty bodies.
ghost use Rattle.board_audits.specs.AuditLaws.{AuditLaw, CutsFaultLaw, JournalFaultLaw, ReadingsFaultLaw};
ghost use Rattle.board_audits.specs.AuditLaws.{StartFaultLaw};

/// An audit finds no fault exactly if a register starts with the members and the records are legal,
/// with 0 as the first cut.
pub fn audit_law()
    ensures legal { AuditLaw }
{}

/// Each fault that an audit finds exists and is the first: the data that the audit checks before it
/// are legal.
pub fn audit_fault_laws()
    ensures start { StartFaultLaw }
    ensures journal { JournalFaultLaw }
    ensures cuts { CutsFaultLaw }
    ensures readings { ReadingsFaultLaw }
{}
