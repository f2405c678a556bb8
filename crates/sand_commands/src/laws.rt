//! The laws of the commands, as the contracts of functions that do nothing.
//!
//! **Runs in parts.** A drop depends only on its site and on the pile before it. So `drops --count M --from N`, on the
//! pile that `drops --count N` left, makes the last M drops of a single run of N + M, with the same numbers and
//! avalanches.

ghost use Rattle.sand_commands.specs.Faults.{KeepNumbers};
ghost use Rattle.sand_commands.specs.Parts.{RunsInParts};

/// A run, then one with `--from` on the resulting pile, have the rows and the final pile of a single run.
pub fn runs_in_parts()
    ensures { RunsInParts }
{}

/// A fault of a lower crate keeps its number when it becomes the program's.
pub fn one_number()
    ensures { KeepNumbers }
{}
