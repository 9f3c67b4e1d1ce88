//! The text of a run: reads the bytes of an input, parses them into records, carries these out one
//! by one on an `Interpreter`, and writes the lines of an output.
//!
//! Three types say why something ended. A `Refusal` is the reason alone: of a call, or of a record
//! that asks for nothing. A `Stop` ends a run before the line of its fault is written. `end_run`
//! writes that line, and returns the `Fault` to the caller: the number of the reason and the number
//! of the record.
#![tactic(auto)]

mod bounds;
mod endings;
mod faults;
mod fields;
mod input;
mod interpreters;
mod laws;
mod line;
mod lines;
mod numbers;
mod opening;
mod output;
mod requests;
mod script;
mod starting;
mod stops;

pub use bounds::{Limits, READERS};
pub use endings::end_run;
pub use faults::Fault;
pub use fields::{Fields, fields_in, is_word};
pub use input::{INPUT_LIMIT, INTERRUPTIONS, READS};
pub use interpreters::{Interpreter, interpret};
pub use laws::{input_law, majority_law, member_law, number_law, reading_law, request_law};
pub use line::{LINE, Line};
pub use lines::{
    line_of_answer, line_of_audit, line_of_chair, line_of_count, line_of_fault, line_of_reading,
};
pub use numbers::number_of_field;
pub use opening::read_preamble;
pub use output::{Output, say};
pub use requests::{Request, command_of_one, command_of_two, request_in};
pub use script::Script;
pub use starting::{ScriptStart, read_within, start_script};
pub use stops::Stop;
