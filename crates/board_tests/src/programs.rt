//! Tests of the program's calls, words, statuses and streams.
use crate::devices::{Device, WHOLE};
use crate::runs::{run, run_args};
use fixtures::{BLOCKING_READER, THREE_CHAIRS, THREE_PUBLICATIONS, WorkedRun};
use std::io;
use std::io::ErrorKind;
use std::test::Fail;

// A run of `serve` with a refused command, no publication, and a reading of reader 2 alone.
const NOTHING_PUBLISHED: WorkedRun = WorkedRun {
    input: "member,votes\nAAA,10\nscript\nopen,1\nmove,AAA,1\nmove,AAA,1\nread,2,85\n",
    output: "accepted,1\naccepted,2\nrefused,6,AlreadyThere\nreader,1,0\nreader,2,1\naudit,ok\n",
};

const RUNS: [(&str, WorkedRun); 4] = [
    ("replay", THREE_CHAIRS),
    ("trace", BLOCKING_READER),
    ("serve", THREE_PUBLICATIONS),
    ("serve", NOTHING_PUBLISHED),
];

// Catches a call that ends in OutOfMemory, ReadFault, WriteFault, GateClosed or Mismatch though
// nothing failed, which the contracts allow.
#[test]
fn worked_runs(rt: HostRuntime) -> Result<(), Fail> {
    for (command, worked) in RUNS {
        let ended = run(
            &rt,
            rt.alloc(),
            &[command],
            worked.input.as_bytes(),
            WHOLE,
            WHOLE,
        )?;
        assert!(rt; ended.is(0, worked.output, ""), "{command}");
    }
    Ok(())
}

// Arguments that ask for no call, the status, and how standard output and standard error begin.
const WORDS: [(&[&str], u8, &str, &str); 5] = [
    (&["--help"], 0, "A register of the voting power", ""),
    (&["--version"], 0, "board ", ""),
    (&[], 2, "", "error: 'board' requires a subcommand"),
    (
        &["replay", "--readers", "255"],
        2,
        "",
        "error: invalid value '255' for '--readers <N>'",
    ),
    (
        &["serve", "--readers", "2"],
        2,
        "",
        "error: unexpected argument '--readers' found",
    ),
];

// Catches help, a version or a reason that isn't written: no clause says what these texts are.
#[test]
fn words_that_ask_for_no_call(rt: HostRuntime) -> Result<(), Fail> {
    for (words, status, out, err) in WORDS {
        let ended = run(&rt, rt.alloc(), words, b"", WHOLE, WHOLE)?;
        assert!(rt; ended.begins(status, out, err), "{words:?}");
    }
    Ok(())
}

// Catches a missing or cut line where the arguments can't be read, of which the contracts promise a
// prefix, and a read of the input.
#[test]
fn words_that_could_not_be_read(rt: HostRuntime) -> Result<(), Fail> {
    for (kind, status, text) in [
        (ErrorKind::OutOfMemory, 1, "board: OutOfMemory\n"),
        (
            ErrorKind::InvalidData,
            2,
            "error: the arguments are not text\n",
        ),
    ] {
        let args = Err(io::Error::from(kind));
        let ended = run_args(&rt, rt.alloc(), args, b"", WHOLE, WHOLE)?;
        assert!(rt; ended.is(status, "", text) && ended.reads == 0, "{text}");
    }
    Ok(())
}
