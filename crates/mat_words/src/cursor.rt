//! What is left of a text and of a line, while it is read.

ghost use Rattle.std.specs.Prelude.{◌<◌, ◌+◌, ◌^◌, length};

/// The lines that are left of a text, of which the first has this number.
#[derive(Clone, Copy)]
pub struct LineCursor<'a> {
    /// The number of the first line.
    pub line: u32,
    /// The lines, and what stands behind the last byte 10.
    pub text: &'a [u8],
    ghost in_range: { line + length text.now < 2 ^ 32 },
}

/// The words that are left of the line with this number: none, or the parts of these bytes between spaces.
#[derive(Clone, Copy)]
pub struct WordCursor<'a> {
    /// The number of the line.
    pub line: u32,
    /// What is left of the line.
    pub left: Option<&'a [u8]>,
}
