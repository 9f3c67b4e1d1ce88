//! Tests of inputs at the limit of their length, and of a field that is far too long.
use crate::devices::WHOLE;
use crate::runs::run;
use std::alloc::{AllocError, Global};
use std::process::ExitCode;
use std::test::Fail;

// The first records, and then one record `times` times.
fn repeated(alloc: Global, head: &str, record: &str, times: usize) -> Result<Vec<u8>, AllocError> {
    let mut text: Vec<u8> = Vec::new(alloc);
    text.extend_from_slice(head.as_bytes())?;
    for _record in 0..times {
        text.extend_from_slice(record.as_bytes())?;
    }
    Ok(text)
}

// A command, the first records of an input, the records that it repeats and how often, and the
// number of bytes that it writes.
const LONGEST: [(&str, &str, &str, usize, usize); 3] = [
    (
        "replay",
        "member,votes\nAAA,0000010\nscript\n",
        "publish\n",
        524_284,
        524_284 * 12,
    ),
    (
        "trace",
        "member,votes\nAAA,000000010\nscript\n",
        "writer,1\n",
        466_030,
        466_030 * 8,
    ),
    (
        "serve",
        "member,votes\nAAA,0000010\nscript\n",
        "publish\nread,1,half\nread,2,half\n",
        131_071,
        131_071 * 12 + 16 + 16 + 9,
    ),
];

// Catches a call on the longest input that runs out of memory, of stack or of a test's time: the
// proofs bound none of them. Catches a `board serve` whose gate closes: no clause says that
// `process` uses the gate that never does.
#[test]
fn longest_inputs(rt: HostRuntime) -> Result<(), Fail> {
    for (command, head, records, times, count) in LONGEST {
        let mut text = repeated(rt.alloc(), head, records, times)?;
        assert_eq!(rt; text.len(), 4_194_304);
        let ended = run(&rt, rt.alloc(), &[command], text.as_slice(), WHOLE, WHOLE)?;
        let done = (ended.code == ExitCode::SUCCESS, ended.out.len());
        assert!(rt; done == (true, count), "{command}");
        text.push(b'\n')?;
        let ended = run(&rt, rt.alloc(), &[command], text.as_slice(), WHOLE, WHOLE)?;
        assert!(rt;
            ended.is(1, "fault,0,TooLong\n", "board: TooLong\n"),
            "{command}"
        );
    }
    Ok(())
}

// A command, its records before a field of a million bytes, and its output.
const FIELDS: [(&str, &str, &str); 3] = [
    ("replay", "open,1\nopen,", "accepted,1\nfault,5,BadRecord\n"),
    ("trace", "writer,1\nwriter,", "skipped\nfault,5,BadRecord\n"),
    ("serve", "open,1\nopen,", "fault,5,BadRecord\n"),
];

// Catches a long field that ends a run in OutOfMemory in place of BadRecord, which the contracts
// allow.
#[test]
fn a_field_of_a_million_bytes(rt: HostRuntime) -> Result<(), Fail> {
    for (command, records, written) in FIELDS {
        let mut text = repeated(rt.alloc(), "member,votes\nAAA,10\nscript\n", records, 1)?;
        text.extend_from_slice(repeated(rt.alloc(), "", "1", 1_000_000)?.as_slice())?;
        let ended = run(&rt, rt.alloc(), &[command], text.as_slice(), WHOLE, WHOLE)?;
        assert!(rt; ended.is(1, written, "board: BadRecord\n"), "{command}");
    }
    Ok(())
}
