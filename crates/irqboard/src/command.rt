//! The commands of the program.
ghost use Rattle.std.specs.Prelude.{◌≡◌};
ghost use Rattle.irqboard.specs.Commands.{command_of};

use io_edge::Word;

/// What the program is asked to do.
#[derive(Clone, Copy, Debug, PartialEq, Eq)]
pub enum Command {
    /// Ask the lines of a script, and write their transcript.
    Replay,
    /// Run the actors of a script side by side on a running board, and write their transcript.
    Run,
    /// Check a transcript behind its script, and write the verdict.
    Check,
}

/// The command that these words are, if they are one.
pub fn command_of(words: &[Word]) -> Option<Command>
    ensures { result ≡ command_of words.now }
{
    match words {
        [word] => {
            if word.bytes() == b"replay".as_slice() {
                Some(Command::Replay)
            } else if word.bytes() == b"run".as_slice() {
                Some(Command::Run)
            } else if word.bytes() == b"check".as_slice() {
                Some(Command::Check)
            } else {
                None
            }
        }
        _ => None,
    }
}
