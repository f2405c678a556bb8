//! The names of commands and of options without a value, for what is said of words that the command line rejects.

ghost use Rattle.std.specs.Prelude.{◌≡◌};
ghost use Rattle.sand_cli.specs.Names.{is_command, is_flag};

/// Whether a word is a command.
#[tactic(auto, unfolding(crate::specs::Line::command_line))]
pub fn is_command(word: &str) -> bool
    ensures { result ≡ is_command word.now }
{
    matches!(
        word,
        "settle"
            | "burn"
            | "identity"
            | "drops"
            | "add"
            | "inverse"
            | "multiple"
            | "recurrent"
            | "lab"
    )
}

/// Whether a name, without its dashes, is that of a command's option without a value.
#[tactic(auto, unfolding(crate::specs::Line::command_line))]
pub fn is_flag(name: &str) -> bool
    ensures { result ≡ is_flag name.now }
{
    matches!(name, "pile" | "pgm" | "cylinder" | "table" | "journal")
}
