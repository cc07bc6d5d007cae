//! The words that the program is called with.
ghost use Rattle.std.specs.Prelude.{◌≡◌, ◌↔◌, Some, string_bytes};
ghost use Rattle.vublk.specs.Words.{IsCommand, word_of};

/// What the program is asked for.
#[derive(Clone, Copy, Debug, PartialEq, Eq)]
pub enum Command {
    /// The records of a schedule's run.
    Replay,
    /// The history of a schedule's run.
    Entries,
}

fn command_at(word: &String) -> Option<Command>
    ensures { (c : Command) → (result ≡ Some c) ↔ (string_bytes word.now ≡ word_of c) }
{
    match word.as_str() {
        "replay" => Some(Command::Replay),
        "entries" => Some(Command::Entries),
        _ => None,
    }
}

/// The command of these words, if they are accepted.
pub fn command_of(words: &[String]) -> Option<Command>
    ensures { (c : Command) → (result ≡ Some c) ↔ IsCommand c words.now }
{
    match words {
        [word] => command_at(word),
        _ => None,
    }
}
