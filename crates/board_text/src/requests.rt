//! Parses the records of an input.
ghost use Rattle.std.specs.Prelude.{◌≡◌, [], ◌∷◌, option_map};
ghost use Rattle.std.specs.Option.{ok_or};
ghost use Rattle.council_core.specs.declared.refusals.Refusal.TheVariants.{BadRecord};
ghost use Rattle.csv.specs.Records.{fields_of};
ghost use Rattle.board_text.specs.Requests.{command_of, is_header, is_mark, member_of, parts_of_fields, submission};
ghost use Rattle.board_text.specs.Numbers.{number_of_digits};
ghost use Rattle.board_text.specs.declared.requests.Request.TheVariants.{Read};
ghost use Rattle.board_text.specs.Text.{is_served, request_within, valid_or_refused};
ghost use Rattle.majority_rule.specs.Majorities.{majority_of};
ghost use Rattle.board_text.specs.Words.{pair_of, chair_of, code_of_member, target_chair, votes_of};

use crate::bounds::Limits;
use crate::fields::{Fields, fields_in, is_word};
use crate::numbers::number_of_field;
use council_core::{ChairId, Command, CommandKind, Form, MemberCode, Order, Parts, Refusal, Votes};
use csv::ByteRecord;
use majority_rule::Majority;

/// A request of one record of the script.
#[derive(Clone, Copy, Debug, PartialEq, Eq)]
pub enum Request {
    /// A call of the writer.
    Order(Order),
    /// Read the published sheet as the reader of this number, which the limits have, at this
    /// majority.
    Read(u8, Majority),
}

// A chair, by its number.
fn chair_in(field: &[u8]) -> Option<ChairId>
    ensures { result ≡ chair_of field.now }
{
    let number = number_of_field(field)?;
    let number = u8::try_from(number).ok()?;
    ChairId::new(number).ok()
}

// The votes of a member.
fn votes_in(field: &[u8]) -> Option<Votes>
    ensures { result ≡ votes_of field.now }
{
    let number = number_of_field(field)?;
    Votes::new(number).ok()
}

// The code of a member.
fn code_in(field: &[u8]) -> Option<MemberCode>
    ensures { result ≡ code_of_member field.now }
{
    MemberCode::new(field).ok()
}

// The destination of a member: a chair, or none.
fn seat_in(field: &[u8]) -> Option<Option<ChairId>>
    ensures { result ≡ target_chair field.now }
{
    if is_word(field, "none") {
        return Some(None);
    }
    let chair = chair_in(field)?;
    Some(Some(chair))
}

// The parts of a command in this form that one field gives.
fn parts_in_one(form: Form, field: &[u8]) -> Option<Parts>
    ensures { result ≡ parts_of_fields form (field.now ∷ []) }
{
    match form {
        Form::Chair => Some(Parts::Chair(chair_in(field)?)),
        Form::Member => Some(Parts::Member(code_in(field)?)),
        Form::Seat | Form::Votes => None,
    }
}

// The parts of a command in this form that two fields give.
fn parts_in_two(form: Form, first: &[u8], second: &[u8]) -> Option<Parts>
    ensures { result ≡ parts_of_fields form (first.now ∷ second.now ∷ []) }
{
    match form {
        Form::Chair | Form::Member => None,
        Form::Seat => {
            let code = code_in(first)?;
            Some(Parts::Seat(code, seat_in(second)?))
        }
        Form::Votes => {
            let code = code_in(first)?;
            Some(Parts::Votes(code, votes_in(second)?))
        }
    }
}

/// The command of a word and one field; `None` if they aren't well formed.
pub fn command_of_one(word: &[u8], argument: &[u8]) -> Option<Command>
    ensures { result ≡ command_of (word.now ∷ argument.now ∷ []) }
{
    // The prover needs this line, since parts have a chair.
    let _nowhere: Option<ChairId> = None;
    let kind = CommandKind::from_word(word)?;
    let parts = parts_in_one(kind.form(), argument)?;
    Command::from_parts(kind, parts)
}

/// The command of a word and two fields; `None` if they aren't well formed.
pub fn command_of_two(word: &[u8], first: &[u8], second: &[u8]) -> Option<Command>
    ensures { result ≡ command_of (word.now ∷ first.now ∷ second.now ∷ []) }
{
    // The prover needs this line, since parts have a chair.
    let _nowhere: Option<ChairId> = None;
    let kind = CommandKind::from_word(word)?;
    let parts = parts_in_two(kind.form(), first, second)?;
    Command::from_parts(kind, parts)
}

// The request to submit a command, if there is one.
fn submission_in(command: Option<Command>) -> Result<Request, Refusal>
    ensures { result ≡ ok_or (option_map submission command) BadRecord }
{
    let command = command.ok_or(Refusal::BadRecord)?;
    Ok(Request::Order(Order::Submit(command)))
}

// A reading by a numbered reader at a majority.
fn reading_in(limits: Limits, reader: &[u8], majority: &[u8]) -> Result<Request, Refusal>
    ensures { result ≡ valid_or_refused (is_served limits)
        (pair_of Read (number_of_digits reader.now) (majority_of majority.now)) }
{
    let reader = number_of_field(reader).ok_or(Refusal::BadRecord)?;
    let majority = Majority::from_word(majority).ok_or(Refusal::BadRecord)?;
    let reader = limits.reader(reader).ok_or(Refusal::BadReader)?;
    Ok(Request::Read(reader, majority))
}

/// What a record of a script asks for.
///
/// # Errors
///
/// `BadRecord` if the record isn't well formed, `BadReader` if its reader number isn't from 1 to
/// `limits.readers`.
pub fn request_in(limits: Limits, row: &ByteRecord) -> Result<Request, Refusal>
    ensures same { result ≡ request_within limits (fields_of row.now) }
{
    match fields_in(row) {
        Fields::One(word) if is_word(word, "publish") => Ok(Request::Order(Order::Publish)),
        Fields::Two(word, argument) => submission_in(command_of_one(word, argument)),
        Fields::Three(word, reader, majority) if is_word(word, "read") => {
            reading_in(limits, reader, majority)
        }
        Fields::Three(word, first, second) => submission_in(command_of_two(word, first, second)),
        _ => Err(Refusal::BadRecord),
    }
}

// Whether a record is the header, `member,votes`.
pub(crate) fn is_header_row(row: &ByteRecord) -> bool
    ensures { result ≡ is_header (fields_of row.now) }
{
    match fields_in(row) {
        Fields::Two(a, b) => is_word(a, "member") && is_word(b, "votes"),
        _ => false,
    }
}

// Whether a record is the mark between the members and the script, `script`.
pub(crate) fn is_mark_row(row: &ByteRecord) -> bool
    ensures { result ≡ is_mark (fields_of row.now) }
{
    match fields_in(row) {
        Fields::One(a) => is_word(a, "script"),
        _ => false,
    }
}

// The member of a record, if the record is well formed.
pub(crate) fn member_in(row: &ByteRecord) -> Option<(MemberCode, Votes)>
    ensures { result ≡ member_of (fields_of row.now) }
{
    match fields_in(row) {
        Fields::Two(first, second) => {
            let code = code_in(first)?;
            let votes = votes_in(second)?;
            Some((code, votes))
        }
        _ => None,
    }
}
