//! What a byte that cannot be in the text of a pile may mean.

const SETTLED: &str = "\
This looks like the output of settle, drops or lab. Use their option --pile to
write only the pile.";

const TABLE: &str = "\
This looks like the output of drops or lab. Use their option --pile to write
only the pile.";

const BURNT: &str = "\
This looks like the output of burn, which contains no pile. Use the pile that
burn read.";

const FAULT: &str = "This looks like a fault line: the previous command failed.";

const PICTURE: &str = "\
This looks like a picture (PGM), but piles are read as text. In a picture that
--pgm wrote, delete lines 1 and 3: sed '1d;3d' FILE";

const MARK: &str = "\
The input begins with a byte-order mark. Save it without one, or skip the first
3 bytes: tail -c +4 FILE";

const WHOLE: &str = "Grains are whole numbers, written with digits only.";

/// What an output of the program has from its first unexpected byte on, and what to say about it.
static OUTPUTS: [(&str, &str); 8] = [
    ("odometer", SETTLED),
    ("lost ", SETTLED),
    ("number site", TABLE),
    ("epoch ", TABLE),
    ("journal", TABLE),
    ("recurrent", BURNT),
    ("forbidden", BURNT),
    ("fault ", FAULT),
];

// Whether the byte before an offset is a digit.
fn follows_digit(text: &[u8], at: usize) -> bool {
    let before = at.checked_sub(1).and_then(|before| text.get(before));
    matches!(before, Some(b'0'..=b'9'))
}

// What to say about the unexpected byte at an offset, if no such output goes on there. `rest` begins with this byte.
fn byte_meaning(text: &[u8], at: usize, rest: &[u8]) -> Option<&'static str> {
    let meaning = match rest {
        [b'P', b'1'..=b'6', ..] => PICTURE,
        [0x89, b'P', b'N', b'G', ..] => {
            "This looks like a picture (PNG), but piles are read as text."
        }
        [0xef, 0xbb, 0xbf, ..] => MARK,
        [0xff, 0xfe, ..] | [0xfe, 0xff, ..] | [0, ..] => {
            "This looks like UTF-16. Save the input as plain ASCII or UTF-8."
        }
        [b',' | b';', ..] => "Separate numbers with white space only: tr ',;' ' ' < FILE",
        [b'#', ..] => "A pile cannot contain comments. Remove them: sed 's/#.*//' FILE",
        [b'-', ..] => "A site cannot have fewer than 0 grains.",
        [b'+', ..] => "Write numbers without a sign.",
        [b'.', ..] => WHOLE,
        [b'e' | b'E', ..] if follows_digit(text, at) => WHOLE,
        [b'[' | b'(' | b'{', ..] =>
            "Write only the numbers, without brackets: tr -d '[](){}' < FILE",
        [b'"' | b'\'', ..] => "Write only the numbers, without quotes.",
        [b'c' | b'C', ..] => {
            "The letter c of a cylinder comes after the height, with white space around it."
        }
        [0x0b | 0x0c, ..] => "White space means spaces, tabs and line ends.",
        _ => return None,
    };
    Some(meaning)
}

/// What to say about the unexpected byte at an offset, if its meaning is known.
pub(crate) fn meaning(text: &[u8], at: usize) -> Option<&'static str> {
    let rest = text.get(at..).unwrap_or(&[]);
    let output = OUTPUTS
        .iter()
        .find(|(beginning, _)| rest.starts_with(beginning.as_bytes()));
    match output {
        Some((_, meaning)) => Some(meaning),
        None => byte_meaning(text, at, rest),
    }
}
