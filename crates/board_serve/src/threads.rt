//! Starts the threads of a run, waits for them, and combines their results.
ghost use Rattle.std.specs.Prelude.{◌≡◌, ◌∷◌, [], Ok, Some, length, IfOk, IfErr, IsOkUnless};
ghost use Rattle.board_share.specs.Openings.{share_start, new_readers, new_writer};
ghost use Rattle.board_text.specs.declared.stops.Stop.TheVariants as stop;
ghost use Rattle.board_serve.specs.Outcomes.{IsCollected};
ghost use Rattle.board_serve.specs.Work.{AreDone, AreReady, CanAsk, CanWrite, HasAsked, HasWritten, StopsAll};
ghost use Rattle.board_serve.specs.Work.{ends_of, register_of, returned_stop};

use crate::gates::Gate;
use crate::plan::{Records, SERVED_READERS};
use crate::reader_work::ReaderWork;
use crate::serving::Served;
use crate::writer_work::WriterWork;
use board_share::{Reader, start};
use board_text::Stop;
use council_core::{Answer, Order, Register};
use majority_rule::Majority;
use std::alloc::{AllocError, Global};
use std::snapshot::Snapshot;
use std::sync::Wait;
use std::thread;
use std::thread::{Promise, PromisedHandle, Scope, Threads};

// The work of all threads.
#[derive(Drop)]
pub(crate) struct AllWork {
    pub(crate) writer: WriterWork,
    pub(crate) first: ReaderWork,
    pub(crate) second: ReaderWork,
}

// The two readers.
fn pair(mut readers: Vec<Reader>) -> (Reader, Reader)
    requires two { length readers.items ≡ SERVED_READERS }
    ensures both { readers.items ≡ result.0 ∷ result.1 ∷ [] }
{
    let Some(second) = readers.pop() else {
        unreachable!();
    };
    let Some(first) = readers.pop() else {
        unreachable!();
    };
    (first, second)
}

// The records of the writer, of reader 1 and of reader 2.
fn split_records(records: Records) -> (Vec<Order>, Vec<Majority>, Vec<Majority>)
    ensures orders { result.0 ≡ records.orders }
    ensures asked { records.asked ≡ result.1 ∷ result.2 ∷ [] }
{
    let Records {
        orders,
        asked: [first, second],
    } = records;
    (orders, first, second)
}

// Starts a board over a register, and gives the writer and each reader their records.
pub(crate) fn start_all(
    alloc: Global,
    register: Register,
    records: Records,
) -> Result<AllWork, Stop>
    ensures ready { IfOk result AreReady }
    ensures memory { IsOkUnless result stop.OutOfMemory }

    // The writer and each reader are those of the board's start, and have their records.
    ensures writer { IfOk result (λ w. w.writer.writer ≡ new_writer w.writer.writer.table register SERVED_READERS) }
    ensures orders { IfOk result (λ w. w.writer.orders ≡ records.orders) }
    ensures readers { IfOk result
        (λ w. w.first.analyst.reader ∷ w.second.analyst.reader ∷ []
        ≡ new_readers w.writer.writer.table (share_start register SERVED_READERS) SERVED_READERS) }
    ensures asked { IfOk result (λ w. w.first.asked ∷ w.second.asked ∷ [] ≡ records.asked) }
{
    let Ok((writer, readers)) = start(alloc, register, SERVED_READERS as u8) else {
        return Err(Stop::OutOfMemory);
    };
    let (first, second) = pair(readers);
    let (orders, of_first, of_second) = split_records(records);
    let Ok(writer) = WriterWork::new(alloc, writer, orders) else {
        return Err(Stop::OutOfMemory);
    };
    let Ok(first) = ReaderWork::new(alloc, first, of_first) else {
        return Err(Stop::OutOfMemory);
    };
    let Ok(second) = ReaderWork::new(alloc, second, of_second) else {
        return Err(Stop::OutOfMemory);
    };
    Ok(AllWork {
        writer,
        first,
        second,
    })
}

// The promise of the writer's thread: it returns the writer's work, carried out.
#[derive(Drop)]
struct WillWrite(Snapshot<WriterWork>);

impl Promise<Result<WriterWork, Stop>> for WillWrite {
    ghost kept_by = { λ p r. HasWritten p.0.value r };
}

// The promise of a reader's thread: it returns the reader's work, carried out.
#[derive(Drop)]
struct WillAsk(Snapshot<ReaderWork>);

impl Promise<Result<ReaderWork, Stop>> for WillAsk {
    ghost kept_by = { λ p r. HasAsked p.0.value r };
}

// Starts the writer's thread.
fn start_writer<'s, E, G: Gate, R: Wait + Sync>(
    scope: &Scope<'s, E>,
    rt: &'s R,
    gate: &'s G,
    work: WriterWork,
) -> Result<PromisedHandle<Result<WriterWork, Stop>, WillWrite>, Stop>
    requires ready { CanWrite work }
    ensures promise { IfOk result (λ h. h.promise.0.value ≡ work) }
    ensures memory { IsOkUnless result stop.OutOfMemory }
{
    let promise = WillWrite(Snapshot::of(&work));
    let written = move || -> Result<WriterWork, Stop>
        requires ready { CanWrite work }
        ensures written { HasWritten work result }
    { work.run(rt, gate) };
    match scope.spawn_with(promise, written) {
        Ok(handle) => Ok(handle),
        Err(_) => Err(Stop::OutOfMemory),
    }
}

// Starts a reader's thread.
fn start_reader<'s, E, G: Gate>(
    scope: &Scope<'s, E>,
    gate: &'s G,
    work: ReaderWork,
) -> Result<PromisedHandle<Result<ReaderWork, Stop>, WillAsk>, Stop>
    requires ready { CanAsk work }
    ensures promise { IfOk result (λ h. h.promise.0.value ≡ work) }
    ensures memory { IsOkUnless result stop.OutOfMemory }
{
    let promise = WillAsk(Snapshot::of(&work));
    let asked = move || -> Result<ReaderWork, Stop>
        requires ready { CanAsk work }
        ensures asked { HasAsked work result }
    { work.run(gate) };
    match scope.spawn_with(promise, asked) {
        Ok(handle) => Ok(handle),
        Err(_) => Err(Stop::OutOfMemory),
    }
}

// The work of all threads if all have done theirs, or else the first error: the writer's, that of reader 1, that of
// reader 2.
fn all_done(
    writer: Result<WriterWork, Stop>,
    first: Result<ReaderWork, Stop>,
    second: Result<ReaderWork, Stop>,
) -> Result<AllWork, Stop>
    ensures writer { IfOk result (λ d. writer ≡ Ok d.writer) }
    ensures first { IfOk result (λ d. first ≡ Ok d.first) }
    ensures second { IfOk result (λ d. second ≡ Ok d.second) }
    ensures stopped { IfErr result (λ e. returned_stop (ends_of writer first second) ≡ Some e) }
{
    let writer = writer?;
    let first = first?;
    let second = second?;
    Ok(AllWork {
        writer,
        first,
        second,
    })
}

// Starts all threads and waits for them. If one can't be started, the scope waits for those that
// were.
fn run_in<'s, E, G: Gate, R: Threads + Wait + Sync>(
    scope: &Scope<'s, E>,
    rt: &'s R,
    gate: &'s G,
    work: AllWork,
) -> Result<AllWork, Stop>
    requires ready { AreReady work }
    ensures done { IfOk result (AreDone work) }
    ensures stopped { IfErr result (StopsAll (register_of work.writer.writer) work.writer.orders.items) }
{
    let writer = start_writer(scope, rt, gate, work.writer);
    let first = start_reader(scope, gate, work.first);
    let second = start_reader(scope, gate, work.second);
    all_done(writer?.join(rt), first?.join(rt), second?.join(rt))
}

// Runs all threads at once, and returns after all that were started have ended. Out of memory if
// one can't be started.
pub(crate) fn run_all<G: Gate, R: Threads + Wait + Sync>(
    rt: &R,
    gate: &G,
    work: AllWork,
) -> Result<AllWork, Stop>
    requires ready { AreReady work }
    ensures done { IfOk result (AreDone work) }
    ensures stopped { IfErr result (StopsAll (register_of work.writer.writer) work.writer.orders.items) }
{
    thread::scope(
        thread::scope_env(),
        rt,
        |scope| -> Result<AllWork, Stop>
            requires ready { AreReady work }
            ensures done { IfOk result (AreDone work) }
            ensures stopped { IfErr result (StopsAll (register_of work.writer.writer) work.writer.orders.items) }
        { run_in(scope, rt, gate, work) },
    )
}

// Combines the results of the threads: the writer's answers, journal and cuts, and the readings of
// each reader.
pub(crate) fn collect(alloc: Global, done: AllWork) -> Result<(Vec<Answer>, Served), AllocError>
    ensures collected { IfOk result (λ r. IsCollected done r.0.items r.1) }
{
    let AllWork {
        writer: work,
        first,
        second,
    } = done;
    let WriterWork {
        writer,
        answers,
        cuts,
        ..
    } = work;
    let served = Served {
        journal: Vec::from_slice(alloc, writer.journal())?,
        cuts,
        readings: Vec::from_array(alloc, [first.sheets, second.sheets])?,
        winning: Vec::from_array(alloc, [first.winning, second.winning])?,
    };
    Ok((answers, served))
}
