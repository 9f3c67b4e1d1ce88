//! What a caller in C gets for each record of a script.
ghost use Rattle.std.specs.Prelude.{◌≡◌};
ghost use Rattle.board_c.specs.Items.{item_as, item_with, only_kind, with_span};

use crate::script::lines::LineSpan;
use board_text::Request;
use c_values::{BoardCommand, PUBLISH, READ, command_for};
use council_core::Order;

/// What a record of a script asks for, and where it stands, as `struct board_item` in `board.h`. A
/// part that the record doesn't have is 0.
#[repr(C)]
#[derive(Clone, Copy, Debug, PartialEq, Eq)]
pub struct BoardItem {
    /// The command, as `board_register_apply` takes it; or of kind `PUBLISH` or `READ`, with all
    /// other parts 0.
    pub command: BoardCommand,
    /// The number of the record, counted from 1 over all records of the input.
    pub number: u32,
    /// The number of the reader that reads.
    pub reader: u32,
    /// The majority at which it reads: 0 for half, 1 for 70, 2 for 85 and 3 for quorum.
    pub majority: u32,
    /// The offset of the record's first byte in the input.
    pub from: u32,
    /// The offset of the byte after its last one. A line end is no part of the record.
    pub to: u32,
}

// No command, but a kind of request.
fn only_kind(kind: u32) -> BoardCommand
    ensures { result ≡ only_kind kind }
{
    BoardCommand {
        kind,
        code: [0; 4],
        chair: 0,
        votes: 0,
    }
}

// An item with these parts.
fn item_with(
    number: u32,
    span: LineSpan,
    command: BoardCommand,
    reader: u32,
    majority: u32,
) -> BoardItem
    ensures { result ≡ with_span span.from span.to (item_with number command reader majority) }
{
    BoardItem {
        command,
        number,
        reader,
        majority,
        from: span.from,
        to: span.to,
    }
}

// The item of a request, with its span.
pub(crate) fn item_for(number: u32, span: LineSpan, request: Request) -> BoardItem
    ensures item { result ≡ with_span span.from span.to (item_as number request) }
{
    match request {
        Request::Order(Order::Submit(command)) => item_with(
            number,
            span,
            command_for(&command),
            0,
            0,
        ),
        Request::Order(Order::Publish) => item_with(number, span, only_kind(PUBLISH), 0, 0),
        Request::Read(reader, majority) => {
            item_with(
                number,
                span,
                only_kind(READ),
                u32::from(reader),
                majority.number(),
            )
        }
    }
}
