//! Interprets an input: the part of a run that all three commands share.
ghost use Rattle.std.specs.Prelude.{◌≡◌, ◌≤◌, ◌<◌, ◌+◌, ◌^◌, Ok, [], true, false, length, Result};
ghost use Rattle.std.specs.Prelude.{IfOk, IfErr, IsErrOf, OnOk, IsOkUnless};
ghost use Rattle.recording_io.specs.Tapes.{OfInput};
ghost use Rattle.council_core.specs.declared.refusals.Refusal.{Refusal};
ghost use Rattle.council_core.specs.declared.refusals.Refusal.TheVariants as refusal;
ghost use Rattle.csv.specs.Records.{fields_of};
ghost use Rattle.council_core.specs.Ledgers.{Ledger};
ghost use Rattle.board_text.specs.Streams.{IsReadFault, RunsWithin, most_reads};
ghost use Rattle.board_text.specs.Output.{IsMemoryOrWrite, WritesRun};
ghost use Rattle.board_text.specs.OutputStates.{IsSameOutput};
ghost use Rattle.board_text.specs.Requests.{Row};
ghost use Rattle.board_text.specs.Scripts.{Effect, interpreted_course, run_in, script_course, text_course};
ghost use Rattle.board_text.specs.Text.{fault_at, in_range, printed_run};
ghost use Rattle.board_text.specs.declared.bounds.Limits.{Limits};
ghost use Rattle.board_text.specs.declared.stops.Stop.TheVariants as stop;

use crate::bounds::Limits;
use crate::input::INPUT_LIMIT;
use crate::output::Output;
use crate::script::Script;
use crate::starting::{ScriptStart, read_within, start_script};
use crate::stops::Stop;
use council_core::Refusal;
use csv::ByteRecord;
use recording_io::{Recorder, RecordingReader};
use std::alloc::Global;
use std::io::Read;

/// The state that the records of a script are carried out on.
///
/// Every command of the program reads its input in the same way: it checks the limits, reads all
/// bytes, cuts them into records, reads the header and the members, starts a register, and then
/// carries out the script's records one after another. `interpret` does all of this. What a record
/// means, and what is printed of it, is left to an interpreter: `replay` carries out a record on
/// the register, `trace` on the two-copy machine, and `serve` only stores it for its threads.
///
/// An implementation says in three ghost members what it does, as functions that the contracts
/// cite:
///
/// - `opened` gives the state over a register at its start.
/// - `parsed` gives what a record asks for, or the refusal that ends the run.
/// - `effect` gives, for a state and what is asked for, the lines that are printed and the state
///   after it.
///
/// It has three methods. `interpret` calls `open` once, with a register at its start, if the
/// limits are in range and no fault was found before the script. Then it calls `parse` and
/// `carry_out` for each record, in order, until one returns an error. After an error none is called
/// again, and the state is dropped.
///
/// A refusal of `parse` is a fault of the input at the number of the record; the lines before it
/// stay written. `carry_out` writes its lines to `out` before it returns, and returns `Ok` only if
/// they were written whole. It writes no line of a fault: `end_run` does. Without memory some first
/// lines of the record may have been written, and after a failed write a prefix of them.
pub trait Interpreter: Sized + Drop {
    /// What a record asks for.
    type Asked: Copy;

    // The state opened over a register at its start.
    ghost opened: { Limits → Ledger → Self };

    // What a record asks for.
    ghost parsed: { Limits → Row → Result Self.Asked Refusal };

    // The lines that are printed of what is asked for, and the state after it.
    ghost effect: { Effect Self Self.Asked };

    /// Opens the state over the start of a script.
    ///
    /// # Errors
    ///
    /// `Stop::OutOfMemory`.
    fn open(alloc: Global, start: ScriptStart, limits: Limits) -> Result<Self, Stop>
        requires empty { start.register.journal ≡ [] }
        requires in_range { in_range limits ≡ true }
        ensures opened { IfOk result (λ interpreter. interpreter ≡ opened limits start.register) }
        ensures memory { IsOkUnless result stop.OutOfMemory };

    /// What a record asks for.
    ///
    /// # Errors
    ///
    /// The refusal of a record that asks for nothing.
    fn parse(limits: Limits, row: &ByteRecord) -> Result<Self::Asked, Refusal>
        ensures same { result ≡ parsed limits (fields_of row.now) };

    /// Carries out what a record asks for, and writes its lines.
    ///
    /// # Errors
    ///
    /// `Stop::OutOfMemory` or `Stop::WriteFault`; the state is then unspecified.
    fn carry_out<W: Recorder>(
        &mut self,
        asked: Self::Asked,
        out: &mut Output<'_, W>,
    ) -> Result<(), Stop>
        ensures wrote { WritesRun out.old.contents out.new.contents result
            (printed_run (effect self.old asked).0) }
        ensures state { OnOk result (self.new ≡ (effect self.old asked).1) }
        ensures causes { IfErr result (IsMemoryOrWrite out.new) }
        ensures same_output { IsSameOutput out.old out.new };
}

// Carries out the script's records in order. `first` is the number of the first.
fn interpret_script<I: Interpreter, W: Recorder>(
    script: &mut Script<'_>,
    row: &mut ByteRecord,
    limits: Limits,
    mut interpreter: I,
    first: u32,
    out: &mut Output<'_, W>,
) -> Result<I, Stop>
    requires numbers { first + length script.old < 2 ^ 32 }
    ensures wrote { WritesRun out.old.contents out.new.contents result
        (run_in (script_course (I.parsed limits) I.effect interpreter first script.old)) }
    ensures ended { IfOk result
        (λ i. (script_course (I.parsed limits) I.effect interpreter first script.old).end ≡ Ok i) }
    ensures write_fault { IsErrOf result stop.WriteFault → out.new.failed ≡ true }
    ensures same_output { IsSameOutput out.old out.new }
{
    let mut number = first;
    'records: loop {
        if !script.next(row)? {
            return Ok(interpreter);
        }
        let asked = match I::parse(limits, row) {
            Ok(asked) => asked,
            Err(why) => return Err(Stop::at(why, number)),
        };
        interpreter.carry_out(asked, out)?;
        number += 1;
    }
}

// Interprets the records of a text.
fn interpret_text<I: Interpreter, W: Recorder>(
    alloc: Global,
    text: &[u8],
    limits: Limits,
    out: &mut Output<'_, W>,
) -> Result<I, Stop>
    requires short { length text.now ≤ INPUT_LIMIT }
    requires in_range { in_range limits ≡ true }
    ensures wrote { WritesRun out.old.contents out.new.contents result
        (run_in (text_course I.opened I.parsed I.effect limits text.now)) }
    ensures ended { IfOk result
        (λ i. (text_course I.opened I.parsed I.effect limits text.now).end ≡ Ok i) }
    ensures write_fault { IsErrOf result stop.WriteFault → out.new.failed ≡ true }
    ensures same_output { IsSameOutput out.old out.new }
{
    let mut script = Script::new(alloc, text);
    let mut row = ByteRecord::new(alloc);
    let start = start_script(alloc, &mut script, &mut row, limits)?;
    let first = start.first;
    let interpreter = I::open(alloc, start, limits)?;
    interpret_script(&mut script, &mut row, limits, interpreter, first, out)
}

/// Interprets the input, without the line of a fault, and returns the state after it.
///
/// # Errors
///
/// What stopped the run. The lines written before stay.
pub fn interpret<I: Interpreter, R: Read + Drop, W: Recorder>(
    alloc: Global,
    input: &mut RecordingReader<R>,
    out: &mut Output<'_, W>,
    limits: Limits,
) -> Result<I, Stop>
    ensures wrote { OfInput input.old input.new
        (λ bytes. WritesRun out.old.contents out.new.contents result
        (run_in (interpreted_course I.opened I.parsed I.effect limits bytes))) }
    ensures ended { OfInput input.old input.new
        (λ bytes. IfOk result (λ i. (interpreted_course I.opened I.parsed I.effect limits bytes).end ≡ Ok i)) }
    ensures limits_first { in_range limits ≡ false
        → IsErrOf result (stop.Fault (fault_at refusal.BadLimit 0)) × (input.new ≡ input.old) }
    ensures reads { RunsWithin IsReadFault most_reads input.old.calls input.new.calls result }
    ensures write_fault { IsErrOf result stop.WriteFault → out.new.failed ≡ true }
    ensures same_output { IsSameOutput out.old out.new }
{
    let text = read_within(alloc, input, limits)?;
    interpret_text::<I, W>(alloc, text.as_slice(), limits, out)
}
