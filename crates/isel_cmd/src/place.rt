//! The place of a byte in a text, as people count it: lines and columns from 1, columns in bytes.

ghost use Rattle.std.specs.Prelude.{◌≡◌};
ghost use Rattle.isel_cmd.specs.Refusal.{line_at, column_at};

/// The line in which a byte stands; a place past the end counts as the end.
pub(crate) fn line_at(bytes: &[u8], place: usize) -> usize
    ensures { result ≡ line_at bytes.now place }
{
    let before = &bytes[..place.min(bytes.len())];
    1 + before.iter().filter(|b| **b == b'\n').count()
}

/// The column in which a byte stands; a place past the end counts as the end.
pub(crate) fn column_at(bytes: &[u8], place: usize) -> usize
    ensures { result ≡ column_at bytes.now place }
{
    let before = &bytes[..place.min(bytes.len())];
    let mut column = 1;
    for byte in before {
        if *byte == b'\n' {
            column = 1;
        } else {
            column += 1;
        }
    }
    column
}
