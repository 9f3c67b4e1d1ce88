//! Wrappers of readers and writers that record, for contracts, the bytes that pass through them.
#![tactic(auto)]

mod laws;
mod recorder;
mod recording_reader;
mod recording_writer;
mod tape;

pub use laws::input_laws;
pub use recorder::Recorder;
pub use recording_reader::RecordingReader;
pub use recording_writer::RecordingWriter;
