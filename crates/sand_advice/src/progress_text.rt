//! The progress of a long command, in one line.

use crate::pushing::push_grouped;
use std::alloc::{AllocError, Global};

const MINUTE: u64 = 60;

const HOUR: u64 = 60 * MINUTE;

// Appends a time: `41 s`, `1 min 20 s`, `2 h 5 min`.
fn push_time(text: &mut String, seconds: u64) -> Result<(), AllocError> {
    let hours = seconds / HOUR;
    let minutes = seconds % HOUR / MINUTE;
    let rest = seconds % MINUTE;
    match (hours, minutes) {
        (0, 0) => write!(text, "{rest} s"),
        (0, _) => write!(text, "{minutes} min {rest} s"),
        _ => write!(text, "{hours} h {minutes} min"),
    }
}

// `number` times `of`, divided by `by` and rounded down.
fn scaled(number: u64, of: u64, by: u64) -> u64 {
    let product = u128::from(number).saturating_mul(u128::from(of));
    u64::try_from(product / u128::from(by.max(1))).unwrap_or(u64::MAX)
}

/// The drops made and wanted, the percentage, the time so far, and the time left at this rate: `drops 3,400,000 of
/// 10,000,000   34 %   41 s   1 min 19 s left`. Fails if memory runs out.
pub(crate) fn progress_line(
    alloc: Global,
    command: &str,
    made: u64,
    goal: u64,
    seconds: u64,
) -> Result<String, AllocError> {
    let made = made.min(goal);
    let percent = scaled(made, 100, goal);
    let left = scaled(goal - made, seconds, made);
    let mut text = String::from_str(alloc, command)?;
    text.push_str(" ")?;
    push_grouped(&mut text, made)?;
    text.push_str(" of ")?;
    push_grouped(&mut text, goal)?;
    write!(text, "   {percent} %   ")?;
    push_time(&mut text, seconds)?;
    text.push_str("   ")?;
    push_time(&mut text, left)?;
    text.push_str(" left")?;
    Ok(text)
}
