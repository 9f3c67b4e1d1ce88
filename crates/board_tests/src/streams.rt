//! Tests over devices that are interrupted, fail, move single bytes, or move none.
use crate::devices::{Answer, BROKEN, BYTE, INTERRUPTED, Plan, WHOLE};
use crate::runs::run;
use std::test::Fail;

// A command with an input whose output has lines after `accepted,1`, in `replay` and `trace` the
// line of a fault; the status and the output, and the text on standard error.
#[derive(Clone, Copy)]
struct Run {
    command: &'static str,
    input: &'static str,
    status: u8,
    out: &'static str,
    err: &'static str,
}

const RUNS: [Run; 3] = [
    Run {
        command: "replay",
        input: "member,votes\nscript\nopen,1\nopen\n",
        status: 1,
        out: "accepted,1\nfault,4,BadRecord\n",
        err: "board: BadRecord\n",
    },
    Run {
        command: "trace",
        input: "member,votes\nscript\nsubmit,open,1\nopen\n",
        status: 1,
        out: "accepted,1\nfault,4,BadRecord\n",
        err: "board: BadRecord\n",
    },
    Run {
        command: "serve",
        input: "member,votes\nscript\nopen,1\npublish\n",
        status: 0,
        out: "accepted,1\npublished,1\nreader,1,0\nreader,2,0\naudit,ok\n",
        err: "",
    },
];

// All interruptions that are retried, 600 before a byte and 400 after it, and single bytes.
const HALTING_READS: Plan<'static> = &[
    (600, INTERRUPTED),
    (1, BYTE),
    (400, INTERRUPTED),
    (u64::MAX, BYTE),
];

// Devices that fail, and the number of reads until then: one interruption too many, and an error
// after which more could be read.
const FAILED_READS: [(Plan<'static>, u64); 2] = [
    (&[(600, INTERRUPTED), (1, BYTE), (401, INTERRUPTED)], 1_002),
    (&[(10, BYTE), (1, BROKEN)], 11),
];

// Catches a ReadFault where the reader didn't fail, a read of more than 4,096 bytes, and a read of
// the device below that `RecordingReader` doesn't record: no contract excludes them.
#[test]
fn readers_that_interrupt_or_fail(rt: HostRuntime) -> Result<(), Fail> {
    for Run {
        command,
        input,
        status,
        out,
        err,
    } in RUNS {
        let bytes = input.as_bytes();
        let ended = run(&rt, rt.alloc(), &[command], bytes, HALTING_READS, WHOLE)?;
        let reads = bytes.len() as u64 + 1_001;
        assert!(rt;
            ended.is(status, out, err) && ended.reads == reads,
            "{command}"
        );
        for (plan, reads) in FAILED_READS {
            let ended = run(&rt, rt.alloc(), &[command], bytes, plan, WHOLE)?;
            let failed = ended.is(1, "fault,0,ReadFault\n", "board: ReadFault\n");
            assert!(rt; failed && ended.reads == reads, "{command}");
        }
    }
    Ok(())
}

// All interruptions that are retried, 600 before the first line and 400 after it, and single bytes.
const HALTING_WRITES: Plan<'static> = &[
    (600, INTERRUPTED),
    (11, BYTE),
    (400, INTERRUPTED),
    (u64::MAX, BYTE),
];

// Devices that fail, after which they would take more, and the bytes until then: one interruption
// too many, no byte taken, and an error.
const FAILED_WRITES: [(Plan<'static>, usize); 4] = [
    (&[(600, INTERRUPTED), (11, BYTE), (401, INTERRUPTED)], 11),
    (&[(1, Answer::Moves(0))], 0),
    (&[(15, BYTE), (1, Answer::Moves(0))], 15),
    (&[(15, BYTE), (1, BROKEN)], 15),
];

// Catches a WriteFault where the writer didn't fail, a write after one that failed, and a count of
// interruptions that starts again with a line: no contract says that a run makes one `Output`.
#[test]
fn writers_that_interrupt_or_fail(rt: HostRuntime) -> Result<(), Fail> {
    for Run {
        command,
        input,
        status,
        out,
        err,
    } in RUNS {
        let bytes = input.as_bytes();
        let ended = run(&rt, rt.alloc(), &[command], bytes, WHOLE, HALTING_WRITES)?;
        assert!(rt; ended.is(status, out, err), "{command}");
        for (plan, taken) in FAILED_WRITES {
            let ended = run(&rt, rt.alloc(), &[command], bytes, WHOLE, plan)?;
            let front = out.get(..taken).unwrap_or_default();
            assert!(rt;
                ended.is(1, front, "board: WriteFault\n"),
                "{command}, {taken}"
            );
        }
    }
    Ok(())
}
