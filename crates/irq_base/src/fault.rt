//! What is wrong with a line of a script.
use std::fmt;

/// The first cause that fits a bad line.
#[derive(Clone, Copy, Debug, PartialEq, Eq)]
pub enum LineCause {
    /// The last line has no line feed.
    Cut,
    /// A byte outside 20h to 7Eh.
    Char,
    /// A line after the end, or no end.
    End,
    /// A word that is not the one awaited.
    Word,
    /// Too few or too many words, or another fixed word.
    Count,
    /// A number that is not spelled so, or outside its range.
    Number,
    /// A processor or device that is not there, or may not ask this.
    Actor,
}

impl fmt::Display for LineCause {
    ghost use Rattle.irq_base.specs.Text.{line_cause_text};
    ghost use Rattle.std.specs.Prelude.{Some};

    ghost output = { λ c. Some (line_cause_text c) };

    fn fmt<W: fmt::Write>(&self, f: &mut fmt::Formatter<W>) -> fmt::Result {
        match self {
            LineCause::Cut => write!(f, "cut"),
            LineCause::Char => write!(f, "char"),
            LineCause::End => write!(f, "end"),
            LineCause::Word => write!(f, "word"),
            LineCause::Count => write!(f, "count"),
            LineCause::Number => write!(f, "number"),
            LineCause::Actor => write!(f, "actor"),
        }
    }
}
