//! The program `board`: parses its arguments with clap, runs a call, and sets the exit status; also
//! exports these calls to other programs.
#![tactic(auto)]

mod calls;
mod commands;
mod programs;

pub use board_runs::{replay, trace};
pub use board_serve::{FreeGate, Gate, GateClosed, Place, Served, serve};
pub use board_text::{Fault, Limits};
pub use calls::{Invocation, NoCall};
pub use programs::process;
pub use recording_io::{Recorder, RecordingReader, RecordingWriter};
