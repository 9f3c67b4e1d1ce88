//! The program `board`: `process` of `board_report`, on this process's arguments and standard streams.
#![tactic(auto)]

use board_report::{RecordingReader, RecordingWriter, process};
use std::env;
use std::process::ExitCode;

fn main(rt: HostRuntime) -> ExitCode {
    process(
        &rt,
        rt.alloc(),
        env::args(&rt),
        &mut RecordingReader::new(rt.stdin()),
        &mut RecordingWriter::new(&mut rt.stdout()),
        &mut RecordingWriter::new(&mut rt.stderr()),
    )
}
