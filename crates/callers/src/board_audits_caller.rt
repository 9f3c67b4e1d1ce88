//! A caller of `board_audits`.
ghost use Rattle.std.specs.Prelude.{◌∷◌, [], length, OnOk};
ghost use Rattle.council_core.specs.Sequential.{AreLegalRecords};

use board_audits::{AuditFault, audit};
use council_core::{MemberCode, Register, Sheet, Votes};
use std::alloc::Global;

/// Audits the sheets that one reader read from a board that published all commands of `register` at once.
pub fn audit_reader(
    alloc: Global,
    members: &[(MemberCode, Votes)],
    register: &Register,
    sheets: Vec<Sheet>,
) -> Result<(), AuditFault>
    ensures legal { OnOk result (AreLegalRecords members.now register.now.journal
        (0 ∷ length register.now.journal ∷ []) (sheets.items ∷ [])) }
{
    let cuts = [register.accepted()];
    audit(alloc, members, register.journal(), &cuts, &[sheets])
}
