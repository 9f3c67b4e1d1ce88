//! A board with its threads, from the start to the audit.
ghost use Rattle.std.specs.Prelude.{◌≡◌, ◌∷◌, [], IfOk};
ghost use Rattle.council_core.specs.Sequential.{AreLegalRecords};
ghost use Rattle.board_share.specs.Readers.{IsLegalRecord};
ghost use Rattle.two_threads.specs.Sessions.{IsNew};

use crate::work::{WrittenSession, read_often, write_all};
use anyhow::Result;
use board_share::{Reader, Writer, audit, start};
use council_core::{Command, MAX_COMMANDS, MemberCode, Register, Sheet, Votes};
use std::alloc::Global;
use std::sync::Wait;
use std::thread::{Threads, join};

// The result of a session: the journal, its cuts, and the sheets that the reader read.
#[derive(Drop)]
pub(crate) struct Session {
    pub(crate) journal: Vec<Command>,
    pub(crate) cuts: Vec<u32>,
    pub(crate) sheets: Vec<Sheet>,
}

// A board over these members: a writer, and a reader that has not read.
fn seat(alloc: Global, members: &[(MemberCode, Votes)]) -> Result<(Writer, Reader)>
    ensures writer { IfOk result (λ b. b.0.ledger.journal ≡ []) }
    ensures reader { IfOk result (λ b. IsNew b.1) }
    ensures opening { IfOk result (λ b. b.1.opening ≡ members.now) }
{
    let register = Register::start(alloc, members, MAX_COMMANDS)?;
    let (writer, mut readers) = match start(alloc, register, 1) {
        Ok(board) => board,
        Err((_, why)) => return Err(why.into()),
    };
    let Some(reader) = readers.pop() else {
        unreachable!();
    };
    Ok((writer, reader))
}

// Runs the writer and the reader at once, and returns after both have ended.
fn run_both<R: Threads + Wait + Sync>(
    rt: &R,
    alloc: Global,
    writer: Writer,
    reader: Reader,
    commands: &[Command],
) -> Result<(WrittenSession, Vec<Sheet>)>
    requires writer { writer.ledger.journal ≡ [] }
    requires reader { IsNew reader }
    ensures journal { IfOk result (λ r. r.0.journal.items ≡ commands.now) }
    ensures record { IfOk result (λ r. IsLegalRecord reader.opening r.1.items) }
{
    let write = move || -> Result<WrittenSession>
        requires { writer.ledger.journal ≡ [] }
        ensures { IfOk result (λ w. w.journal.items ≡ commands.entry.now) }
    { write_all(rt, alloc, writer, commands) };
    let read = move || -> Result<Vec<Sheet>>
        requires { IsNew reader }
        ensures { IfOk result (λ sheets. IsLegalRecord reader.opening sheets.items) }
    { read_often(alloc, reader) };
    let (written, sheets) = join(rt, write, read);
    Ok((written?, sheets?))
}

// Holds a session over these members: the writer submits and publishes each command, the reader reads at the same
// time, and an audit checks what it read. By the reader's contract alone each reading is the sheet of a cut of some
// legal list, and fronts never decrease; by the audit that list is the writer's journal.
//
// # Errors
//
// The refusal of the members or of a command, out of memory, or the fault that the audit found.
pub(crate) fn hold<R: Threads + Wait + Sync>(
    rt: &R,
    alloc: Global,
    members: &[(MemberCode, Votes)],
    commands: &[Command],
) -> Result<Session>
    ensures journal { IfOk result (λ s. s.journal.items ≡ commands.now) }
    ensures record { IfOk result (λ s. IsLegalRecord members.now s.sheets.items) }
    ensures audited { IfOk result
        (λ s. AreLegalRecords members.now s.journal.items (0 ∷ s.cuts.items) (s.sheets.items ∷ [])) }
{
    let (writer, reader) = seat(alloc, members)?;
    let (written, sheets) = run_both(rt, alloc, writer, reader, commands)?;
    let WrittenSession { journal, cuts } = written;
    let readings = [sheets];
    audit(
        alloc,
        members,
        journal.as_slice(),
        cuts.as_slice(),
        &readings,
    )?;
    let [sheets] = readings;
    Ok(Session {
        journal,
        cuts,
        sheets,
    })
}
