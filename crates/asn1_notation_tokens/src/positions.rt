//! Lines and columns of a text.
ghost use Rattle.std.specs.Prelude.{◌≡◌, ◌<◌, ◌^◌, length};
ghost use Rattle.asn1_notation_tokens.specs.Positions.{line_at, column_at, begins_character};

/// Where an octet of a text is.
#[derive(Clone, Copy, Debug, PartialEq, Eq)]
pub struct Position {
    /// The number of its line, counted from 1.
    pub line: usize,
    /// The number of its character in the line, counted from 1.
    pub column: usize,
}

/// Whether an octet begins a character of UTF-8.
fn begins_character(octet: u8) -> bool
    ensures { result ≡ begins_character octet }
{
    octet < 0x80 || octet >= 0xC0
}

/// The line and the column of the octet at an index of a text in UTF-8; of the text's end, if the index is beyond it.
/// A line ends with LF.
pub fn line_and_column(text: &[u8], offset: usize) -> Position
    // No text in memory is as long.
    ensures line { length text.now < 2 ^ 63 → result.line ≡ line_at text.now offset }
    ensures column { length text.now < 2 ^ 63 → result.column ≡ column_at text.now offset }
{
    let before = &text[..offset.min(text.len())];
    let mut line: usize = 1;
    let mut column: usize = 1;
    for octet in before {
        if *octet == b'\n' {
            line = line.saturating_add(1);
            column = 1;
        } else if begins_character(*octet) {
            column = column.saturating_add(1);
        }
    }
    Position { line, column }
}
