//! Formats the outputs of the machine as lines.
ghost use Rattle.std.specs.Prelude.{◌≡◌, ◌≤◌, ◌+◌, ◌∷◌, [], length, IfSome, IfNone};
ghost use Rattle.board_runs.specs.Notes.{busy_line, note_lines, sheet_line};

use board_text::{LINE, Line, line_of_answer};
use council_core::{Answer, Sheet};
use two_copy_steps::Note;

// The line of an output of the machine, without its line end; `None` for `Note::Moved`, which
// prints nothing.
pub(crate) fn line_of_note(note: Note) -> Option<Line>
    ensures text { IfSome result (λ line. note_lines note ≡ line ∷ []) }
    ensures none { IfNone result (note_lines note ≡ []) }
    ensures fits { IfSome result (λ line. length line + 1 ≤ LINE) }
{
    match note {
        Note::Accepted(accepted) => Some(line_of_answer(Answer::Accepted(accepted))),
        Note::Refused(why) => Some(line_of_answer(Answer::Refused(why))),
        Note::Began => Some(Line::new("began")),
        Note::Moved => None,
        Note::Published(front) => Some(line_of_answer(Answer::Published(front))),
        Note::Busy(reader) => Some(busy_line(reader)),
        Note::Read(reader, sheet) => Some(sheet_line(reader, &sheet)),
        Note::Skipped => Some(Line::new("skipped")),
    }
}

// The line of a publication that a reader blocked.
fn busy_line(reader: u8) -> Line
    ensures text { result ≡ busy_line reader }
    ensures fits { length result + 1 ≤ LINE }
{
    let mut line = Line::new("busy");
    line.number(u64::from(reader));
    line
}

// The line of a reading in `trace`: the reader, and the front, cast and total of the sheet.
fn sheet_line(reader: u8, sheet: &Sheet) -> Line
    ensures text { result ≡ sheet_line reader sheet.now }
    ensures fits { length result + 1 ≤ LINE }
{
    let mut line = Line::new("sheet");
    line.number(u64::from(reader));
    line.number(u64::from(sheet.front()));
    line.number(sheet.cast());
    line.number(sheet.total());
    line
}
