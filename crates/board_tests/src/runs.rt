//! Runs the program over devices in memory.
use crate::devices::{BYTE, Device, INTERRUPTED, Plan};
use board_report::{RecordingReader, RecordingWriter, process};
use std::alloc::{AllocError, Global};
use std::env::Args;
use std::io;
use std::process::ExitCode;
use std::sync::Wait;
use std::sync::atomic::{AtomicU64, Ordering};
use std::thread::Threads;

/// The plan of standard error: all interruptions that are retried, and single bytes.
pub(crate) const HALTING: Plan<'static> = &[(1_000, INTERRUPTED), (u64::MAX, BYTE)];

/// The exit code of a run, the bytes that its outputs accepted, and the number of its reads.
#[derive(Drop)]
pub(crate) struct Ended {
    pub(crate) code: ExitCode,
    pub(crate) out: Vec<u8>,
    pub(crate) err: Vec<u8>,
    pub(crate) reads: u64,
}

impl Ended {
    /// Whether the run has this status and wrote these texts.
    pub(crate) fn is(&self, status: u8, out: &str, err: &str) -> bool {
        self.code == ExitCode::from(status)
            && self.out.as_slice() == out.as_bytes()
            && self.err.as_slice() == err.as_bytes()
    }

    /// Whether the run has this status, and each text begins with this one, and is empty if this one
    /// is.
    pub(crate) fn begins(&self, status: u8, out: &str, err: &str) -> bool {
        self.code == ExitCode::from(status)
            && begins(self.out.as_slice(), out)
            && begins(self.err.as_slice(), err)
    }
}

fn begins(text: &[u8], with: &str) -> bool {
    text.starts_with(with.as_bytes()) && text.is_empty() == with.is_empty()
}

// The program's arguments, after its name.
fn words_of(alloc: Global, texts: &[&str]) -> Result<Vec<String>, AllocError> {
    let mut words: Vec<String> = Vec::new(alloc);
    words.push(String::from_str(alloc, "board")?)?;
    for text in texts {
        words.push(String::from_str(alloc, text)?)?;
    }
    Ok(words)
}

/// Runs the program with these arguments on this input, which is read by the first plan, and whose
/// output is written by the second.
pub(crate) fn run<T: Threads + Wait + Sync>(
    rt: &T,
    alloc: Global,
    texts: &[&str],
    input: &[u8],
    reads: Plan<'_>,
    writes: Plan<'_>,
) -> Result<Ended, AllocError> {
    let args = Ok(words_of(alloc, texts)?.into_iter());
    run_args(rt, alloc, args, input, reads, writes)
}

/// The same with these arguments, or the error that kept them from being read.
pub(crate) fn run_args<T: Threads + Wait + Sync>(
    rt: &T,
    alloc: Global,
    args: io::Result<Args>,
    input: &[u8],
    reads: Plan<'_>,
    writes: Plan<'_>,
) -> Result<Ended, AllocError> {
    let (calls, others) = (AtomicU64::new(0), [AtomicU64::new(0), AtomicU64::new(0)]);
    let mut reader = RecordingReader::new(Device::new(alloc, reads, &calls, input));
    let mut out = Device::new(alloc, writes, &others[0], b"");
    let mut err = Device::new(alloc, HALTING, &others[1], b"");
    let code = process(
        rt,
        alloc,
        args,
        &mut reader,
        &mut RecordingWriter::new(&mut out),
        &mut RecordingWriter::new(&mut err),
    );
    Ok(Ended {
        code,
        out: out.into_taken(),
        err: err.into_taken(),
        reads: calls.load(Ordering::SeqCst),
    })
}
