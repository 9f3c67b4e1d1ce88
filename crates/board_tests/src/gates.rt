//! Tests of `serve` with gates that hold its threads, or close.
use board_report::{
    Fault, Gate, GateClosed, Place, RecordingReader, RecordingWriter, Served, serve,
};
use fixtures::THREE_PUBLICATIONS;
use std::alloc::Global;
use std::sync::Wait;
use std::sync::atomic::{AtomicU64, Ordering};
use std::test::Fail;
use std::thread;
use std::thread::Threads;
use std::time::{Clock, Duration};

// The places of the run.
const PLACES: [Place; 12] = [
    Place::BeforePublish(1),
    Place::AfterPublish(1),
    Place::BeforePublish(2),
    Place::AfterPublish(2),
    Place::BeforePublish(3),
    Place::AfterPublish(3),
    Place::BeforeReading(1, 1),
    Place::AfterReading(1, 1),
    Place::BeforeReading(1, 2),
    Place::AfterReading(1, 2),
    Place::BeforeReading(2, 1),
    Place::AfterReading(2, 1),
];

// All places, as bits.
const ALL: u64 = (1 << 12) - 1;

// The bit of a place; 0 for one that the run doesn't have.
fn bit_of(at: Place) -> u64 {
    let mut bit = 1u64;
    for place in PLACES {
        if place == at {
            return bit;
        }
        bit <<= 1;
    }
    0
}

// Places, each with the places that must be reached before its thread may leave it.
type Waits = &'static [(Place, &'static [Place])];

// Both readers wait at their first reading, and the writer at its third publication.
const MEETING: Waits = &[
    (Place::BeforePublish(3), &[Place::AfterReading(1, 1)]),
    (
        Place::BeforeReading(1, 1),
        &[Place::BeforePublish(3), Place::BeforeReading(2, 1)],
    ),
    (
        Place::BeforeReading(2, 1),
        &[Place::BeforePublish(3), Place::BeforeReading(1, 1)],
    ),
];

// The k-th readings come while the k-th publication is the last. Threads are held on both sides of
// each call, so a call at another place publishes or reads too early or too late.
const IN_ORDER: Waits = &[
    (Place::BeforePublish(1), &[Place::BeforeReading(2, 1)]),
    (Place::AfterPublish(1), &[Place::AfterReading(1, 1)]),
    (Place::BeforePublish(2), &[Place::AfterReading(2, 1)]),
    (Place::AfterPublish(2), &[Place::AfterReading(1, 2)]),
    (Place::BeforeReading(1, 1), &[Place::AfterPublish(1)]),
    (Place::AfterReading(1, 1), &[Place::AfterPublish(2)]),
    (Place::BeforeReading(1, 2), &[Place::AfterPublish(2)]),
    (Place::AfterReading(1, 2), &[Place::AfterPublish(3)]),
    (
        Place::BeforeReading(2, 1),
        &[Place::AfterPublish(1), Place::BeforePublish(2)],
    ),
];

// A gate at which threads wait for others. Each place is passed once.
#[derive(Drop)]
struct HoldingGate<'a, C> {
    clock: &'a C,
    waits: Waits,
    reached: AtomicU64,
}

impl<'a, C: Clock> HoldingGate<'a, C> {
    // Waits until all of these have been reached, or 5,000 turns of a millisecond have passed.
    fn hold(&self, all: u64) -> Result<(), GateClosed> {
        for _ in 0..5000u32 {
            if self.reached.load(Ordering::SeqCst) & all == all {
                return Ok(());
            }
            thread::sleep(self.clock, Duration::from_millis(1));
        }
        Err(GateClosed)
    }
}

impl<'a, C: Clock + Sync> Gate for HoldingGate<'a, C> {
    fn pass(&self, at: Place) -> Result<(), GateClosed> {
        let bit = bit_of(at);
        if bit == 0 || self.reached.fetch_or(bit, Ordering::SeqCst) & bit != 0 {
            return Err(GateClosed);
        }
        match self.waits.iter().find(|wait| wait.0 == at) {
            Some((_, others)) => self.hold(others.iter().fold(0, |bits, to| bits | bit_of(*to))),
            None => Ok(()),
        }
    }
}

// A gate that counts the places that each thread has passed, and closes at one that isn't the
// thread's next.
#[derive(Drop)]
struct CountingGate {
    writer: AtomicU64,
    first: AtomicU64,
    second: AtomicU64,
}

impl Gate for CountingGate {
    fn pass(&self, at: Place) -> Result<(), GateClosed> {
        let (passed, k, after) = match at {
            Place::BeforePublish(k) => (&self.writer, k, 0u64),
            Place::AfterPublish(k) => (&self.writer, k, 1u64),
            Place::BeforeReading(1, k) => (&self.first, k, 0u64),
            Place::AfterReading(1, k) => (&self.first, k, 1u64),
            Place::BeforeReading(2, k) => (&self.second, k, 0u64),
            Place::AfterReading(2, k) => (&self.second, k, 1u64),
            _ => return Err(GateClosed),
        };
        let before = passed.fetch_add(1, Ordering::SeqCst);
        if u64::from(k) * 2 + after == before.wrapping_add(2) {
            Ok(())
        } else {
            Err(GateClosed)
        }
    }
}

// A gate that is closed at one place.
#[derive(Clone, Copy)]
struct ClosedGate(Place);

impl Gate for ClosedGate {
    fn pass(&self, at: Place) -> Result<(), GateClosed> {
        if at == self.0 {
            Err(GateClosed)
        } else {
            Ok(())
        }
    }
}

// Serves three publications under a gate: the result, and the text written.
fn serve_under<G: Gate, R: Threads + Wait + Sync>(
    rt: &R,
    alloc: Global,
    gate: &G,
) -> (Result<Served, Fault>, Vec<u8>) {
    let mut input = RecordingReader::new(THREE_PUBLICATIONS.input.as_bytes());
    let mut out: Vec<u8> = Vec::new(alloc);
    let result = serve(
        rt,
        alloc,
        gate,
        &mut input,
        &mut RecordingWriter::new(&mut out),
        10,
    );
    (result, out)
}

// Serves three publications under a gate that holds threads: the fronts of the first reader's two
// readings and of the second's one, whether the text is right, and the places reached.
fn hold_up<R: Threads + Wait + Clock + Sync>(
    rt: &R,
    alloc: Global,
    waits: Waits,
) -> (Option<[u32; 3]>, bool, u64) {
    let gate = HoldingGate {
        clock: rt,
        waits,
        reached: AtomicU64::new(0),
    };
    let (result, out) = serve_under(rt, alloc, &gate);
    let written = out.as_slice() == THREE_PUBLICATIONS.output.as_bytes();
    let fronts = match result {
        Ok(served) => fronts_of(&served),
        Err(_) => None,
    };
    (fronts, written, gate.reached.load(Ordering::SeqCst))
}

fn fronts_of(served: &Served) -> Option<[u32; 3]> {
    let first = served.readings.first()?;
    let second = served.readings.get(1)?;
    let fronts = [first.first()?, first.get(1)?, second.first()?];
    Some(fronts.map(|sheet| sheet.front()))
}

// Catches threads that run one after another: no contract says that they run at once.
#[test]
fn two_threads_meet(rt: HostRuntime) -> Result<(), Fail> {
    let (fronts, written, reached) = hold_up(&rt, rt.alloc(), MEETING);
    assert!(rt; fronts.is_some_and(|fronts| fronts[0] == 2));
    assert!(rt; (written, reached) == (true, ALL));
    Ok(())
}

// Catches a gate that is passed before a publication or a reading and not after it, or the reverse,
// not at all, twice, or with a number that stops at one: no contract says that gates are passed.
#[test]
fn all_places_in_order(rt: HostRuntime) -> Result<(), Fail> {
    assert!(rt; hold_up(&rt, rt.alloc(), IN_ORDER) == (Some([1, 2, 1]), true, ALL));
    Ok(())
}

// Catches a number that stops at some publication or reading, and a place that is left out from some
// number on: no contract says that gates are passed.
#[test]
fn twelve_of_each(rt: HostRuntime) -> Result<(), Fail> {
    let gate = CountingGate {
        writer: AtomicU64::new(0),
        first: AtomicU64::new(0),
        second: AtomicU64::new(0),
    };
    let mut text: Vec<u8> = Vec::new(rt.alloc());
    text.extend_from_slice(b"member,votes\nAAA,10\nscript\n")?;
    for _turn in 0..12u32 {
        text.extend_from_slice(b"publish\nread,1,half\nread,2,half\n")?;
    }
    let mut input = RecordingReader::new(text.as_slice());
    let mut out: Vec<u8> = Vec::new(rt.alloc());
    let mut recorder = RecordingWriter::new(&mut out);
    let result = serve(&rt, rt.alloc(), &gate, &mut input, &mut recorder, 10);
    assert!(rt; result.is_ok());
    for passed in [&gate.writer, &gate.first, &gate.second] {
        assert_eq!(rt; passed.load(Ordering::SeqCst), 24);
    }
    Ok(())
}

// Catches a closed gate that is passed over: no contract says that a thread stops there.
#[test]
fn a_closed_gate_is_reported(rt: HostRuntime) -> Result<(), Fail> {
    for place in PLACES {
        let (result, out) = serve_under(&rt, rt.alloc(), &ClosedGate(place));
        assert!(rt;
            result.err() == Some(Fault { code: 27, place: 0 }),
            "{place:?}"
        );
        assert!(rt; out.as_slice() == b"fault,0,GateClosed\n".as_slice());
    }
    Ok(())
}
