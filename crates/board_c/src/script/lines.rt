//! The lines of an input, and where each stands.
ghost use Rattle.std.specs.Prelude.{◌≡◌, ◌≤◌, ◌+◌, length, drop};
ghost use Rattle.std.specs.List.{prefix_len};
ghost use Rattle.board_c.specs.Spans.{is_in_line, is_line_end};
ghost use Rattle.board_c.specs.TextLines.{line_after, lines_end, mark_size};

use board_text::INPUT_LIMIT;

// The offsets of a line's first byte and of the byte after its last one. The line has a byte.
#[derive(Clone, Copy)]
pub(crate) struct LineSpan {
    pub(crate) from: u32,
    pub(crate) to: u32,
}

// Whether a byte is a carriage return or a line feed.
fn is_line_end(byte: u8) -> bool
    ensures { result ≡ is_line_end byte }
{
    byte == b'\r' || byte == b'\n'
}

// The offset of the first byte from `at` on that is in a line, or the end of the text.
fn line_start(text: &[u8], at: usize) -> usize
    requires inside { at ≤ length text.now }
    ensures start { result ≡ at + prefix_len is_line_end (drop at text.now) }
    ensures within { result ≤ length text.now }
{
    let mut index = at;
    'bytes: while index < text.len() && is_line_end(text[index]) {
        index += 1;
    }
    index
}

// The offset of the first byte from `from` on that ends a line, or the end of the text.
fn line_stop(text: &[u8], from: usize) -> usize
    requires inside { from ≤ length text.now }
    ensures stop { result ≡ from + prefix_len is_in_line (drop from text.now) }
    ensures within { result ≤ length text.now }
{
    let mut index = from;
    'bytes: while index < text.len() && !is_line_end(text[index]) {
        index += 1;
    }
    index
}

// Where the first line with a byte in it stands, from `at` on.
pub(crate) fn line_after(text: &[u8], at: usize) -> LineSpan
    requires inside { at ≤ length text.now }
    requires short { length text.now ≤ INPUT_LIMIT }
    ensures line { result ≡ line_after text.now at }
    ensures within { result.to ≤ length text.now }
{
    let from = line_start(text, at);
    let to = line_stop(text, from);
    LineSpan {
        from: from as u32,
        to: to as u32,
    }
}

// How many bytes a byte order mark takes at the start of a text.
fn mark_size(text: &[u8]) -> usize
    ensures size { result ≡ mark_size text.now }
    ensures within { result ≤ length text.now }
{
    match text {
        [0xEF, 0xBB, 0xBF, ..] => 3,
        _ => 0,
    }
}

// The end of line number `count`, of those with a byte in them.
pub(crate) fn end_of_lines(text: &[u8], count: u32) -> usize
    requires short { length text.now ≤ INPUT_LIMIT }
    ensures end { result ≡ lines_end count text.now (mark_size text.now) }
    ensures within { result ≤ length text.now }
{
    let mut at = mark_size(text);
    for _passed in 0..count {
        at = line_after(text, at).to as usize;
    }
    at
}
