//! Parses the records of a schedule for the two-copy machine.
ghost use Rattle.std.specs.Prelude.{◌≡◌, option_map};
ghost use Rattle.std.specs.Option.{ok_or};
ghost use Rattle.csv.specs.Records.{fields_of};
ghost use Rattle.council_core.specs.declared.refusals.Refusal.TheVariants.{BadRecord};
ghost use Rattle.board_text.specs.Numbers.{number_of_digits};
ghost use Rattle.board_text.specs.Text.{valid_or_refused};
ghost use Rattle.board_text.specs.Words.{pair_of};
ghost use Rattle.board_runs.specs.Schedules.{count_of, events_within, has_actor, one_submission};
ghost use Rattle.board_runs.specs.Schedules.{steps_of_reader, steps_of_writer};

use board_text::{
    Fields, Limits, command_of_one, command_of_two, fields_in, is_word, number_of_field,
};
use council_core::{Command, Refusal};
use csv::ByteRecord;
use two_copy_steps::Event;

/// The most steps that one record of a schedule asks for.
pub const MAX_STEPS: u64 = 1000;

// A number of steps, from 1 to `MAX_STEPS`.
fn count_in(field: &[u8]) -> Option<u32>
    ensures { result ≡ count_of field.now }
{
    let number = number_of_field(field)?;
    if number == 0 || MAX_STEPS < number {
        return None;
    }
    Some(number as u32)
}

// The event that submits a command, once, if there is a command.
fn submission_in(command: Option<Command>) -> Result<(Event, u32), Refusal>
    ensures { result ≡ ok_or (option_map one_submission command) BadRecord }
{
    let command = command.ok_or(Refusal::BadRecord)?;
    Ok((Event::Submit(command), 1))
}

// A number of steps of the writer.
fn writer_in(count: &[u8]) -> Result<(Event, u32), Refusal>
    ensures { result ≡ ok_or (option_map steps_of_writer (count_of count.now)) BadRecord }
{
    let count = count_in(count).ok_or(Refusal::BadRecord)?;
    Ok((Event::Writer, count))
}

// A number of steps of a reader.
fn reader_in(limits: Limits, reader: &[u8], count: &[u8]) -> Result<(Event, u32), Refusal>
    ensures { result ≡ valid_or_refused (λ e. has_actor limits e.0)
        (pair_of steps_of_reader (number_of_digits reader.now) (count_of count.now)) }
{
    let reader = number_of_field(reader).ok_or(Refusal::BadRecord)?;
    let count = count_in(count).ok_or(Refusal::BadRecord)?;
    let reader = limits.reader(reader).ok_or(Refusal::BadReader)?;
    Ok((Event::Reader(reader), count))
}

// The event that a record of a schedule asks for, and how often it is taken.
//
// # Errors
//
// `BadRecord` if the record isn't well formed, `BadReader` if its reader number isn't from 1 to
// `limits.readers`.
pub(crate) fn events_in(limits: Limits, row: &ByteRecord) -> Result<(Event, u32), Refusal>
    ensures same { result ≡ events_within limits (fields_of row.now) }
{
    match fields_in(row) {
        Fields::One(word) if is_word(word, "publish") => Ok((Event::Publish, 1)),
        Fields::Two(word, count) if is_word(word, "writer") => writer_in(count),
        Fields::Three(word, reader, count) if is_word(word, "reader") => {
            reader_in(limits, reader, count)
        }
        Fields::Three(word, command, argument) if is_word(word, "submit") => {
            submission_in(command_of_one(command, argument))
        }
        Fields::Four(word, command, first, second) if is_word(word, "submit") => {
            submission_in(command_of_two(command, first, second))
        }
        _ => Err(Refusal::BadRecord),
    }
}
