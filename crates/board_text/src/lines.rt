//! Formats the lines of the output.
ghost use Rattle.std.specs.Prelude.{◌≡◌, ◌≤◌, ◌+◌, length};
ghost use Rattle.council_core.specs.Sequential.{answered};
ghost use Rattle.board_text.specs.Lines.{accepted_line, audit_line, chair_line, fault_line, published_line};
ghost use Rattle.board_text.specs.Lines.{reader_line, reading_line, refused_line, reply_line};

use crate::faults::Fault;
use crate::line::{LINE, Line};
use council_core::{Answer, Refusal};
use power_index::{ChairPower, Indices};

// The line of an accepted command: `accepted` commands have been accepted so far.
fn accepted_line(accepted: u32) -> Line
    ensures text { result ≡ accepted_line accepted }
    ensures fits { length result + 1 ≤ LINE }
{
    let mut line = Line::new("accepted");
    line.number(u64::from(accepted));
    line
}

// The line of a refused command: the number and the name of the refusal.
fn refused_line(why: Refusal) -> Line
    ensures text { result ≡ refused_line why }
    ensures fits { length result + 1 ≤ LINE }
{
    let mut line = Line::new("refused");
    line.number(u64::from(why.code()));
    line.word(why.name());
    line
}

// The line of a publication: `front` commands are published.
fn published_line(front: u32) -> Line
    ensures text { result ≡ published_line front }
    ensures fits { length result + 1 ≤ LINE }
{
    let mut line = Line::new("published");
    line.number(u64::from(front));
    line
}

/// The line of an answer to a command or to a publication, without its line end.
pub fn line_of_answer(answer: Answer) -> Line
    ensures text { result ≡ reply_line (answered answer) }
    ensures fits { length result + 1 ≤ LINE }
{
    match answer {
        Answer::Accepted(accepted) => accepted_line(accepted),
        Answer::Refused(why) => refused_line(why),
        Answer::Published(front) => published_line(front),
    }
}

/// The first line of a reading: the reader's number and the indices of the whole board, without its
/// line end.
pub fn line_of_reading(reader: u8, indices: &Indices) -> Line
    ensures text { result ≡ reading_line reader indices.now }
    ensures fits { length result + 1 ≤ LINE }
{
    let mut line = Line::new("reading");
    line.number(u64::from(reader));
    line.number(u64::from(indices.front));
    line.word(indices.majority.word());
    line.number(u64::from(indices.chairs));
    line.number(indices.quota);
    line.number(indices.cast);
    line.number(indices.total);
    line.number(indices.winning);
    line.number(indices.coalitions);
    line
}

/// The line of one chair in a reading, without its line end.
pub fn line_of_chair(row: &ChairPower) -> Line
    ensures text { result ≡ chair_line row.now }
    ensures fits { length result + 1 ≤ LINE }
{
    let mut line = Line::new("chair");
    line.number(u64::from(row.chair.number()));
    line.number(row.weight);
    line.number(row.swings);
    line.fraction(row.banzhaf);
    line.fraction_if_any(row.share);
    line.fraction_if_any(row.prevent);
    line.fraction(row.initiate);
    line
}

/// The line with the number of readings by a reader, without its line end.
pub fn line_of_count(reader: u64, count: u64) -> Line
    ensures text { result ≡ reader_line reader count }
    ensures fits { length result + 1 ≤ LINE }
{
    let mut line = Line::new("reader");
    line.number(reader);
    line.number(count);
    line
}

/// The line of an audit that found no fault, without its line end.
pub fn line_of_audit() -> Line
    ensures text { result ≡ audit_line }
    ensures fits { length result + 1 ≤ LINE }
{
    let mut line = Line::new("audit");
    line.word("ok");
    line
}

/// The last line of a run that ends in a fault, without its line end.
pub fn line_of_fault(fault: Fault) -> Line
    ensures text { result ≡ fault_line fault }
    ensures fits { length result + 1 ≤ LINE }
{
    let mut line = Line::new("fault");
    line.number(u64::from(fault.place));
    line.word(fault.name());
    line
}
