//! Serves an input with one writer thread and two reader threads.
ghost use Rattle.std.specs.Prelude.{◌≡◌, ◌∷◌, [], Ok, true, false, map};
ghost use Rattle.std.specs.Prelude.{◌↔◌, IfOk, IfErr, IsErrOf, IsOkUnless, IsTrue};
ghost use Rattle.recording_io.specs.Tapes.{IsSameWriter, OfInput};
ghost use Rattle.council_core.specs.Laws.{IsOpening};
ghost use Rattle.council_core.specs.Sequential.{AreLegalRecords, answered};
ghost use Rattle.council_core.specs.declared.refusals.Refusal.TheVariants as refusal;
ghost use Rattle.board_text.specs.Streams.{IsOfDevice, IsReadFault, RunsWithin, WritesWithin, most_reads};
ghost use Rattle.board_text.specs.Lines.{reply_line};
ghost use Rattle.board_text.specs.Output.{IsBadLimit, WritesRun};
ghost use Rattle.board_text.specs.OutputStates.{IsSameOutput};
ghost use Rattle.board_text.specs.Text.{fault_at, in_range, printed_run, with_lines};
ghost use Rattle.board_text.specs.declared.stops.Stop.TheVariants as stop;
ghost use Rattle.board_serve.specs.Outcomes.{IsOutcome, IsServed, ServedLegalRecords, sheets_of};
ghost use Rattle.board_serve.specs.Plans.{plan_of, two_readers};
ghost use Rattle.board_serve.specs.Serving.{IsReportStop, RecordsServeOutput, WritesServeRun};
ghost use Rattle.board_serve.specs.Serving.{audited_run, count_lines, lines_of_work};
ghost use Rattle.board_serve.specs.Work.{StopsAll};

use crate::gates::Gate;
use crate::plan::{Plan, SERVED_READERS};
use crate::threads::{collect, run_all, start_all};
use board_share::{AuditFault, audit, audit_law};
use board_text::{
    Fault, Limits, Output, Stop, end_run, interpret, line_of_answer, line_of_audit, line_of_count,
};
use council_core::{Answer, Command, MemberCode, Refusal, Sheet, Votes, opening_law};
use recording_io::{Recorder, RecordingReader};
use std::alloc::Global;
use std::io::Read;
use std::sync::Wait;
use std::thread::Threads;

/// The result of a run with threads: the journal, the cuts and the readings, which the audit found
/// to be legal records.
#[derive(Debug, Drop)]
pub struct Served {
    /// The accepted commands, in order.
    pub journal: Vec<Command>,
    /// For each publication, in order, the number of commands published.
    pub cuts: Vec<u32>,
    /// For each reader, the sheets that it read, in order.
    pub readings: Vec<Vec<Sheet>>,
    /// For each reader and each of its sheets, the number of winning coalitions at the majority of
    /// that reading.
    pub winning: Vec<Vec<u64>>,
}

// Whether the results of a run are legal records.
fn are_legal(alloc: Global, members: &[(MemberCode, Votes)], served: &Served) -> Result<bool, Stop>
    requires opening { IsOpening members.now }
    ensures legal { IfOk result (λ legal. IsTrue legal
        ↔ AreLegalRecords members.now served.now.journal.items (0 ∷ served.now.cuts.items) (sheets_of served.now)) }
    ensures memory { IsOkUnless result stop.OutOfMemory }
{
    // The laws that the proof uses.
    opening_law();
    audit_law();
    let journal = served.journal.as_slice();
    let cuts = served.cuts.as_slice();
    match audit(alloc, members, journal, cuts, served.readings.as_slice()) {
        Ok(()) => Ok(true),
        Err(AuditFault::OutOfMemory) => Err(Stop::OutOfMemory),
        // By `audit_law` any other fault means that the records aren't legal.
        Err(_) => Ok(false),
    }
}

// What the threads did of a plan, and whether the audit found legal records.
#[derive(Drop)]
struct Performed {
    answers: Vec<Answer>,
    served: Served,
    legal: bool,
}

// Carries out a plan, each thread's records in a separate thread, and checks whether the results
// are legal records.
fn perform<G: Gate, R: Threads + Wait + Sync>(
    rt: &R,
    alloc: Global,
    gate: &G,
    plan: Plan,
) -> Result<Performed, Stop>
    ensures done { IfOk result (λ r. IsOutcome plan r.answers.items r.served) }
    ensures legal { IfOk result (λ r. IsTrue r.legal ↔ ServedLegalRecords plan r.served) }
    ensures stopped { IfErr result (StopsAll plan.start plan.records.orders) }
{
    let (register, records) = plan.into_parts();
    let members = Vec::from_slice(alloc, register.opening())?;
    let work = start_all(alloc, register, records)?;
    let done = run_all(rt, gate, work)?;
    let (answers, served) = collect(alloc, done)?;
    let legal = are_legal(alloc, members.as_slice(), &served)?;
    Ok(Performed {
        answers,
        served,
        legal,
    })
}

// Writes the lines of these answers.
fn write_answers<W: Recorder>(out: &mut Output<'_, W>, answers: &[Answer]) -> Result<(), Stop>
    ensures wrote { WritesRun out.old.contents out.new.contents result
        (printed_run (map (λ a. reply_line (answered a)) answers.now)) }
    ensures same_output { IsSameOutput out.old out.new }
    ensures only { IsOkUnless result stop.WriteFault }
    ensures failed { IfErr result (λ _. out.new.failed ≡ true) }
{
    for answer in answers {
        out.write_line(line_of_answer(*answer))?;
    }
    Ok(())
}

// Writes the number of readings of each reader.
fn write_counts<W: Recorder>(out: &mut Output<'_, W>, counts: (u64, u64)) -> Result<(), Stop>
    ensures wrote { WritesRun out.old.contents out.new.contents result
        (printed_run (count_lines 1 (counts.0 ∷ counts.1 ∷ []))) }
    ensures same_output { IsSameOutput out.old out.new }
    ensures only { IsOkUnless result stop.WriteFault }
    ensures failed { IfErr result (λ _. out.new.failed ≡ true) }
{
    out.write_line(line_of_count(1, counts.0))?;
    out.write_line(line_of_count(2, counts.1))
}

// Writes the answers, the number of readings of each reader, and the result of the audit.
fn report<W: Recorder>(
    out: &mut Output<'_, W>,
    answers: &[Answer],
    counts: (u64, u64),
    legal: bool,
) -> Result<(), Stop>
    ensures wrote { WritesRun out.old.contents out.new.contents result
        (with_lines (lines_of_work (map answered answers.now) (counts.0 ∷ counts.1 ∷ [])) (audited_run legal)) }
    ensures causes { IfErr result (IsReportStop out.new) }
    ensures same_output { IsSameOutput out.old out.new }
{
    write_answers(out, answers)?;
    write_counts(out, counts)?;
    if !legal {
        return Err(Stop::at(Refusal::Mismatch, 0));
    }
    out.write_line(line_of_audit())
}

// Carries out a plan and writes its lines.
fn serve_plan<G: Gate, T: Threads + Wait + Sync, W: Recorder>(
    rt: &T,
    alloc: Global,
    gate: &G,
    plan: Plan,
    out: &mut Output<'_, W>,
) -> Result<Served, Stop>
    ensures wrote { WritesServeRun out.old.contents out.new.contents result (Ok plan) }
    ensures write_fault { IsErrOf result stop.WriteFault → out.new.failed ≡ true }
    ensures same_output { IsSameOutput out.old out.new }
{
    let counts = plan.counts();
    let done = perform(rt, alloc, gate, plan)?;
    report(out, done.answers.as_slice(), counts, done.legal)?;
    Ok(done.served)
}

// Serves the input, without the line of a fault.
fn serve_to<G: Gate, T: Threads + Wait + Sync, R: Read + Drop, W: Recorder>(
    rt: &T,
    alloc: Global,
    gate: &G,
    input: &mut RecordingReader<R>,
    out: &mut Output<'_, W>,
    journal_limit: u32,
) -> Result<Served, Stop>
    ensures wrote { OfInput input.old input.new
        (λ bytes. WritesServeRun out.old.contents out.new.contents result (plan_of journal_limit bytes)) }
    ensures write_fault { IsErrOf result stop.WriteFault → out.new.failed ≡ true }
    ensures limits_first { in_range (two_readers journal_limit) ≡ false
        → IsErrOf result (stop.Fault (fault_at refusal.BadLimit 0)) × (input.new ≡ input.old) }
    ensures reads { RunsWithin IsReadFault most_reads input.old.calls input.new.calls result }
    ensures same_output { IsSameOutput out.old out.new }
{
    let limits = Limits {
        readers: SERVED_READERS as u8,
        journal: journal_limit,
    };
    let plan = interpret::<Plan, R, W>(alloc, input, out, limits)?;
    serve_plan(rt, alloc, gate, plan, out)
}

/// Serves an input: reads it whole, checks all records of its script, and then carries them out by
/// a writer and two readers, each in a separate thread. `journal_limit` is the most commands
/// accepted, from 1 to `MAX_COMMANDS`. The lines are written after all threads have ended and the
/// audit is done.
///
/// The contract relates the text written and the result to `plan_of` of the input's bytes. If the
/// input was not read to its end, this holds for every continuation of the bytes that were read.
///
/// At most `READS` reads of the input are made, and none after the read that reported its end or
/// failed. At most `INTERRUPTIONS` interrupted reads are retried: the next interruption is a failed
/// read. The bounds on writes are those of `replay`.
///
/// ```rust
/// let mut input = RecordingReader::new(text); // `text` is a `&[u8]`
/// let mut lines = Vec::new(rt.alloc());
/// let mut out = RecordingWriter::new(&mut lines);
/// let served = serve(&rt, rt.alloc(), &FreeGate, &mut input, &mut out, MAX_COMMANDS);
/// ```
///
/// # Errors
///
/// The fault that ended the run. Its line is the only line, except that `Mismatch` has its line
/// after those of the writer and the readers, and that `WriteFault` has none and leaves a prefix of
/// the text. Faults are looked for in this order:
///
/// - The faults of `replay` with limits of two readers, before any thread is started.
/// - After all threads have ended `OutOfMemory`, also if a thread could not be started;
///   `GateClosed` if a gate was closed; and `Mismatch` if the audit finds a reading that the
///   register does not give.
///
/// `OutOfMemory` is possible at any time, and `WriteFault` at any write.
pub fn serve<G: Gate, T: Threads + Wait + Sync, R: Read + Drop, W: Recorder>(
    rt: &T,
    alloc: Global,
    gate: &G,
    input: &mut RecordingReader<R>,
    out: &mut W,
    journal_limit: u32,
) -> Result<Served, Fault>
    ensures wrote { OfInput input.old input.new
        (λ bytes. RecordsServeOutput (W.recorded out.old) (W.recorded out.new) result (plan_of journal_limit bytes)) }
    ensures limits_first { in_range (two_readers journal_limit) ≡ false
        → IsBadLimit result × (input.new ≡ input.old) }
    ensures reads { RunsWithin IsOfDevice most_reads input.old.calls input.new.calls result }
    ensures same { IsSameWriter (W.recorded out.old) (W.recorded out.new) }
    ensures writes { WritesWithin (W.recorded out.old) (W.recorded out.new) }
    ensures served { IfOk result
        (λ s. OfInput input.old input.new (λ bytes. IfOk (plan_of journal_limit bytes) (λ p. IsServed p s))) }
    ensures records { IfOk result
        (λ s. OfInput input.old input.new (λ bytes. IfOk (plan_of journal_limit bytes) (λ p. ServedLegalRecords p s))) }
{
    let mut output = Output::new(out);
    let carried = serve_to(rt, alloc, gate, input, &mut output, journal_limit);
    let result = end_run(&mut output, carried);
    let _out = output.into_inner();
    result
}
