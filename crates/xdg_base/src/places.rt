//! Byte places of a text, and the lines and columns that a reader counts.

ghost use Rattle.std.specs.Prelude.{◌≡◌, ◌≤◌, ◌<◌, ◌+◌, ◌^◌, length, not};
ghost use Rattle.std.specs.List.{suffix_len};
ghost use Rattle.xdg_base.specs.Places.{is_line_feed, line_of, column_of};

/// The bytes of a text from `start` up to, but without, `end`.
#[derive(Clone, Copy, Debug, PartialEq, Eq)]
pub struct Span {
    /// The place of the first byte, from 0.
    pub start: u32,
    /// The place after the last byte, from 0; where there is none, the same as the start.
    pub end: u32,
}

/// A line, and a byte of that line. Both count from 1.
#[derive(Clone, Copy, Debug, PartialEq, Eq)]
pub struct LineColumn {
    /// The line feeds before the place, and one.
    pub line: u64,
    /// The bytes of the line before the place, and one.
    pub column: u64,
}

/// The bytes after the last line feed, or all where there is none.
fn bytes_since_line_feed(before: &[u8]) -> usize
    ensures value { result ≡ suffix_len (λ byte. not (is_line_feed byte)) before.now }
    ensures within { result ≤ length before.now }
{
    before
        .iter()
        .rev()
        .take_while(|byte| **byte != b'\n')
        .count()
}

/// The line and the column of the byte place `at`: lines count line feeds, columns count bytes.
pub fn place(text: &[u8], at: u32) -> LineColumn
    requires within { at ≤ length text.now }
    requires small { length text.now < 2 ^ 32 }
    ensures line { result.line ≡ line_of text.now at }
    ensures column { result.column ≡ column_of text.now at }
{
    let before = &text[..at as usize];
    let line_feeds = before.iter().filter(|byte| **byte == b'\n').count();
    LineColumn {
        line: 1 + line_feeds as u64,
        column: 1 + bytes_since_line_feed(before) as u64,
    }
}
