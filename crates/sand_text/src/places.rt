//! Positions in a text as people count them: lines and columns, both from 1.

ghost use Rattle.std.specs.Prelude.{◌≡◌, ◌≤◌, count_by, length, not, reverse};
ghost use Rattle.std.specs.List.{take_while};
ghost use Rattle.sand_text.specs.Places.{ends_line, line_of, column_of};

// The number of line ends in a text.
fn line_ends(text: &[u8]) -> usize
    ensures { result ≡ count_by ends_line text.now }
{
    text.iter().filter(|byte| **byte == b'\n').count()
}

// The number of bytes after the last line end of a text.
fn last_line_len(text: &[u8]) -> usize
    ensures { result ≡ length (take_while (λ byte. not (ends_line byte)) (reverse text.now)) }
{
    text.iter().rev().take_while(|byte| **byte != b'\n').count()
}

/// The line of the byte at an offset.
pub fn line(text: &[u8], at: usize) -> usize
    requires { at ≤ length text.now }
    ensures { result ≡ line_of text.now at }
{
    let (before, _) = text.split_at(at);
    line_ends(before) + 1
}

/// The column of the byte at an offset.
pub fn column(text: &[u8], at: usize) -> usize
    requires { at ≤ length text.now }
    ensures { result ≡ column_of text.now at }
{
    let (before, _) = text.split_at(at);
    last_line_len(before) + 1
}
