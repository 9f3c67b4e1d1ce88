//! Calls that can run out of memory. Contracts allow them to answer `OutOfMemory` at any time, so
//! only these tests find one that answers it where no growth was refused.
ghost use Rattle.std.specs.Thread.{IsSync};

use crate::harness::survives;
use board_serve::{Gate, GateClosed, Place, serve};
use board_share::{Analyst, AuditFault, Reader, Writer, audit, start};
use council_core::{ChairId, Command, MemberCode, Refusal, Register, Sheet, Votes};
use fixtures::{THREE_PUBLICATIONS, member, open, register, seat, set_votes, two_members};
use half_sums::{HalfSums, OrderedSums};
use power_index::Evaluator;
use recording_io::{RecordingReader, RecordingWriter};
use std::alloc::Global;
use std::sync::Wait;
use std::test::Fail;
use std::thread::Threads;
use two_copy_steps::{Event, Machine, Note, run};

/// Applies commands in turn.
pub(crate) fn apply_all(register: &mut Register, commands: &[Command]) -> Result<(), Refusal> {
    for command in commands {
        register.apply(*command)?;
    }
    Ok(())
}

/// A register that has accepted this number of commands, at least two: BBB is in chair 1, and the
/// chairs from 3 up are open. Four commands fill the first room of the journal.
pub(crate) fn with_commands(alloc: Global, commands: u8) -> Result<Register, Refusal> {
    let mut register = register(alloc)?;
    apply_all(&mut register, &[open(1)?, seat("BBB", 1)?])?;
    for chair in 3..=commands {
        apply_all(&mut register, &[open(chair)?])?;
    }
    Ok(register)
}

// Nine members and four commands, which fill the first room of the journal: chairs 1, 3 and 4 are
// open, and BBB is suspended.
fn with_four(alloc: Global) -> Result<Register, Refusal> {
    let mut members = Vec::new(alloc);
    for code in [
        "AAA", "BBB", "CCA", "CCB", "CCC", "CCD", "CCE", "CCF", "CCG",
    ] {
        members.push(member(code, 1)?)?;
    }
    let mut register = Register::start(alloc, members.as_slice(), 100)?;
    let suspend = Command::Suspend(MemberCode::new(b"BBB")?);
    apply_all(&mut register, &[open(1)?, open(3)?, open(4)?, suspend])?;
    Ok(register)
}

// Each command, as that register accepts it. It makes the journal grow.
fn each_command() -> Result<[Command; 8], Refusal> {
    let (first, second) = (MemberCode::new(b"AAA")?, MemberCode::new(b"BBB")?);
    let admitted = MemberCode::new(b"DDD")?;
    Ok([
        open(2)?,
        Command::Close(ChairId::new(1)?),
        seat("AAA", 1)?,
        set_votes("AAA", 7)?,
        Command::Suspend(first),
        Command::Restore(second),
        Command::Withdraw(second),
        Command::Admit(admitted, Votes::new(7)?),
    ])
}

fn starting_survives(alloc: Global) -> Result<bool, Refusal> {
    let begin = |_: &mut ()| Ok(Register::start(alloc, &two_members()?, 100)?.accepted());
    survives(alloc, 2, |_| Ok(()), begin, Ok(0))
}

fn applying_survives(alloc: Global, command: Command) -> Result<bool, Refusal> {
    let apply = |register: &mut Register| register.apply(command);
    survives(alloc, 1, with_four, apply, Ok(5))
}

// Catches a `start`, or an `apply` of one kind of command, that answers OutOfMemory with memory.
#[test]
fn register_calls(rt: HostRuntime) -> Result<(), Fail> {
    let alloc = rt.alloc();
    assert!(rt; starting_survives(alloc)?);
    for command in each_command()? {
        assert!(rt; applying_survives(alloc, command)?, "{command:?}");
    }
    Ok(())
}

// A register, and the number of events that a run over it has done.
#[derive(Drop)]
struct Ran {
    register: Option<Register>,
    done: usize,
}

// Runs the events that are left, and returns the number of accepted commands.
fn run_rest(alloc: Global, ran: &mut Ran, events: &[Event]) -> Result<u32, Refusal> {
    let register = ran.register.take().ok_or(Refusal::BadLimit)?;
    let (_, rest) = events.split_at_checked(ran.done).ok_or(Refusal::BadLimit)?;
    match run(alloc, register, 2, rest) {
        Ok(log) => Ok(log.machine.register().accepted()),
        Err(fault) => {
            ran.register = Some(fault.register);
            ran.done = fault.done;
            Err(fault.why)
        }
    }
}

fn a_step_survives(alloc: Global, submit: Event) -> Result<bool, Refusal> {
    let machine = |alloc| Machine::start(with_commands(alloc, 4)?, 2).map_err(|(_, why)| why);
    let step = |machine: &mut Machine| machine.step(submit);
    survives(alloc, 1, machine, step, Ok(Note::Accepted(5)))
}

fn a_run_survives(alloc: Global, submit: Event) -> Result<bool, Refusal> {
    let events = [Event::Reader(1), submit, Event::Publish];
    let begun = |alloc| Ok(Ran {
        register: Some(with_commands(alloc, 4)?),
        done: 0,
    });
    let run = |ran: &mut Ran| run_rest(alloc, ran, &events);
    survives(alloc, 2, begun, run, Ok(5))
}

// Catches a `step` or a `run` that answers OutOfMemory with memory, also a `run` of the events that
// are left after memory ran out.
#[test]
fn machine_calls(rt: HostRuntime) -> Result<(), Fail> {
    let submit = Event::Submit(open(5)?);
    assert!(rt; a_step_survives(rt.alloc(), submit)?);
    assert!(rt; a_run_survives(rt.alloc(), submit)?);
    Ok(())
}

fn ordered_sums_survive(alloc: Global) -> Result<bool, Refusal> {
    let ordered = |_: &mut ()| Ok(OrderedSums::new(alloc)?.ascending().len());
    survives(alloc, 1, |_| Ok(()), ordered, Ok(1))
}

fn half_sums_survive(alloc: Global) -> Result<bool, Refusal> {
    let half = |_: &mut ()| Ok(HalfSums::new(alloc)?.ascending().len());
    survives(alloc, 2, |_| Ok(()), half, Ok(1))
}

fn an_evaluator_survives(alloc: Global) -> Result<bool, Refusal> {
    let evaluator = |_: &mut ()| Ok(Evaluator::new(alloc)?.sheet().chairs());
    survives(alloc, 2, |_| Ok(()), evaluator, Ok(0))
}

// Catches a constructor of lists that answers OutOfMemory with memory.
#[test]
fn counting_calls(rt: HostRuntime) -> Result<(), Fail> {
    assert!(rt; ordered_sums_survive(rt.alloc())?);
    assert!(rt; half_sums_survive(rt.alloc())?);
    assert!(rt; an_evaluator_survives(rt.alloc())?);
    Ok(())
}

/// The writer and the readers of a new board over `register`.
pub(crate) fn board_over(
    alloc: Global,
    register: Register,
    readers: u8,
) -> Result<(Writer, Vec<Reader>), Refusal> {
    start(alloc, register, readers).map_err(|(_, why)| why)
}

/// Submits the command that opens a chair.
pub(crate) fn submit_open(writer: &mut Writer, chair: u8) -> Result<u32, Refusal> {
    match open(chair) {
        Ok(command) => writer.submit(command),
        Err(why) => Err(why),
    }
}

/// The last reader of a new board over `register`, whose number is that of its readers.
pub(crate) fn last_reader(
    alloc: Global,
    register: Register,
    readers: u8,
) -> Result<Reader, Refusal> {
    let (_writer, mut all) = board_over(alloc, register, readers)?;
    all.pop().ok_or(Refusal::BadReader)
}

/// An analyst of a reader.
pub(crate) fn analyst_of(alloc: Global, reader: Reader) -> Result<Analyst, (Reader, Refusal)> {
    if !reader.at_rest() {
        return Err((reader, Refusal::BadReader));
    }
    Analyst::new(alloc, reader)
}

// Makes a call that takes a value, and keeps the value that a refusal gives back.
fn call_with<V: Drop, T: Drop, F: FnOnce(V) -> Result<T, (V, Refusal)>>(
    kept: &mut Option<V>,
    call: F,
) -> Result<T, Refusal>
    requires { F.IsAlwaysCallable call }
{
    match call(kept.take().ok_or(Refusal::BadLimit)?) {
        Ok(made) => Ok(made),
        Err((value, why)) => {
            *kept = Some(value);
            Err(why)
        }
    }
}

// The number of readers of a board that starts over the kept register.
fn start_board(alloc: Global, kept: &mut Option<Register>, readers: u8) -> Result<usize, Refusal> {
    let (_writer, all) = call_with(kept, |register| start(alloc, register, readers))?;
    Ok(all.len())
}

// The number of the kept reader, of which an analyst is made.
fn make_analyst(alloc: Global, kept: &mut Option<Reader>) -> Result<u8, Refusal> {
    let analyst = call_with(kept, |reader| analyst_of(alloc, reader))?;
    Ok(analyst.into_reader().number())
}

// What one reader reads before and after two commands; `older` swaps the two sheets.
fn two_readings(alloc: Global, older: bool) -> Result<Vec<Vec<Sheet>>, Refusal> {
    let (before, after) = (register(alloc)?.sheet(), with_commands(alloc, 2)?.sheet());
    let sheets = if older {
        [after, before]
    } else {
        [before, after]
    };
    let mut readings = Vec::new(alloc);
    readings.push(Vec::from_slice(alloc, &sheets)?)?;
    Ok(readings)
}

// What an audit of these readings and the same commands finds.
fn audit_all(alloc: Global, readings: &[Vec<Sheet>]) -> Result<Option<AuditFault>, Refusal> {
    let journal = [open(1)?, seat("BBB", 1)?];
    match audit(alloc, &two_members()?, &journal, &[1, 2], readings) {
        Ok(()) => Ok(None),
        Err(AuditFault::OutOfMemory) => Err(Refusal::OutOfMemory),
        Err(fault) => Ok(Some(fault)),
    }
}

fn a_start_survives(alloc: Global, readers: u8) -> Result<bool, Refusal> {
    let kept = |alloc| Ok(Some(register(alloc)?));
    let begin = |kept: &mut Option<Register>| start_board(alloc, kept, readers);
    survives(alloc, 3, kept, begin, Ok(usize::from(readers)))
}

fn an_analyst_survives(alloc: Global, readers: u8) -> Result<bool, Refusal> {
    let last = |alloc| Ok(Some(last_reader(alloc, register(alloc)?, readers)?));
    let analyse = |kept: &mut Option<Reader>| make_analyst(alloc, kept);
    survives(alloc, 2, last, analyse, Ok(readers))
}

fn a_submit_survives(alloc: Global) -> Result<bool, Refusal> {
    let board = |alloc| board_over(alloc, register(alloc)?, 2);
    let submit = |board: &mut (Writer, Vec<Reader>)| submit_open(&mut board.0, 1);
    survives(alloc, 1, board, submit, Ok(1))
}

fn an_audit_survives(
    alloc: Global,
    older: bool,
    found: Option<AuditFault>,
) -> Result<bool, Refusal> {
    let readings = |alloc| two_readings(alloc, older);
    let check = |readings: &mut Vec<Vec<Sheet>>| audit_all(alloc, readings.as_slice());
    survives(alloc, 4, readings, check, Ok(found))
}

// Catches a call of the board that answers OutOfMemory with memory, also if only for some number of
// readers, and an audit that does.
#[test]
fn board_calls(rt: HostRuntime) -> Result<(), Fail> {
    for readers in 1..=4 {
        assert!(rt; a_start_survives(rt.alloc(), readers)?);
        assert!(rt; an_analyst_survives(rt.alloc(), readers)?);
    }
    assert!(rt; a_submit_survives(rt.alloc())?);
    let mismatch = AuditFault::Mismatch {
        reader: 1,
        place: 2,
    };
    assert!(rt; an_audit_survives(rt.alloc(), false, None)?);
    assert!(rt; an_audit_survives(rt.alloc(), true, Some(mismatch))?);
    Ok(())
}

// A gate that is closed to the first reader.
struct ClosedGate;

impl Gate for ClosedGate {
    fn pass(&self, at: Place) -> Result<(), GateClosed> {
        match at {
            Place::BeforeReading(1, _) => Err(GateClosed),
            _ => Ok(()),
        }
    }
}

// Serves with that gate. Returns the fault.
fn serve_closed<R: Threads + Wait + Sync>(
    rt: &R,
    alloc: Global,
    out: &mut Vec<u8>,
) -> Result<(), Refusal>
    requires shared { IsSync R.row }
{
    let mut input = RecordingReader::new(THREE_PUBLICATIONS.input.as_bytes());
    out.clear();
    match serve(
        rt,
        alloc,
        &ClosedGate,
        &mut input,
        &mut RecordingWriter::new(out),
        1_000,
    ) {
        Ok(_served) => Ok(()),
        Err(fault) => Err(Refusal::from_code(fault.code).unwrap_or(Refusal::BadLimit)),
    }
}

// Catches a `serve` that answers GateClosed though a thread could not be started, or the other way
// round: its contract allows both. The built program has no gate, so `tests/memory` can't.
#[test]
fn whole_runs(rt: HostRuntime) -> Result<(), Fail> {
    let alloc = rt.alloc();
    let room = |alloc| Ok(Vec::with_capacity(alloc, 64)?);
    let serve = |out: &mut Vec<u8>| serve_closed(&rt, alloc, out);
    assert!(rt; survives(alloc, 1, room, serve, Err(Refusal::GateClosed))?);
    Ok(())
}
