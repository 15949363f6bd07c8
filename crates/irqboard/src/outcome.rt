//! What the program answers.
ghost use Rattle.std.specs.Prelude.{◌≡◌, ◌<◌, ◌≤◌, ◌++◌, [], length};
ghost use Rattle.irq_base.specs.Text.{line_cause_text};
ghost use Rattle.irqboard.specs.Answers.{status_of, message_of, said_of, limit_text};

use crate::usage::USAGE;
use arrayvec::ArrayString;
use irq_base::{LineCause, Spent};
use itoa::Buffer;
use legal_check::Flaw;
use std::fmt;

/// The room for a line on standard error.
pub const LINE_ROOM: usize = 256;

// The word of a cause.
fn word_of(cause: LineCause) -> &'static str
    ensures word { result.now ≡ line_cause_text cause }
    ensures short { length result.now ≤ 8 }
{
    match cause {
        LineCause::Cut => "cut",
        LineCause::Char => "char",
        LineCause::End => "end",
        LineCause::Word => "word",
        LineCause::Count => "count",
        LineCause::Number => "number",
        LineCause::Actor => "actor",
    }
}

// Puts the limit at the end of the room.
fn put_limit(spent: Spent, room: &mut ArrayString<LINE_ROOM>)
    requires { length room.old.bytes < 100 }
    ensures text { room.new.bytes ≡ room.old.bytes ++ limit_text spent }
    ensures short { length room.new.bytes < LINE_ROOM }
{
    match spent {
        Spent::Calls { at } => {
            room.push_str(Buffer::new().format(at));
            room.push_str(" calls");
        }
        Spent::Publications { at } => {
            room.push_str(Buffer::new().format(at));
            room.push_str(" publications");
        }
    }
}

/// What came of a run of the program.
#[derive(Clone, Copy, Debug, PartialEq, Eq)]
pub enum Outcome {
    /// The work was done.
    Fine,
    /// The words are none that the program knows.
    Usage,
    /// The first line, from 1, that is outside the grammar.
    BadInput { line: u32, cause: LineCause },
    /// The source failed.
    ReadFault,
    /// The sink failed.
    WriteFault,
    /// Want of memory.
    NoMemory,
    /// More bytes were read than an input may have.
    TooLong { bytes: u64 },
    /// The transcript is no legal run of its script: the first place with a flaw, and the flaw. The verdict was written.
    NotLegal { at: u64, cause: Flaw },
    /// A limit of the board stopped an actor, and stopped the first such actor at this limit. The transcript was written.
    Spent { spent: Spent },
}

impl Outcome {
    /// The exit status.
    pub fn status(&self) -> u8
        ensures { result ≡ status_of self.now }
    {
        match self {
            Outcome::Fine => 0,
            Outcome::Usage => 1,
            Outcome::BadInput { .. } => 2,
            Outcome::ReadFault => 3,
            Outcome::WriteFault => 4,
            Outcome::NoMemory => 5,
            Outcome::TooLong { .. } => 6,
            Outcome::NotLegal { .. } => 7,
            Outcome::Spent { .. } => 8,
        }
    }

    // Puts the line for standard error, without its line feed, into the room.
    fn put_line(&self, room: &mut ArrayString<LINE_ROOM>)
        requires { room.old.bytes ≡ [] }
        ensures line { room.new.bytes ≡ message_of self.now }
        ensures short { length room.new.bytes < LINE_ROOM }
    {
        match self {
            Outcome::Fine | Outcome::NotLegal { .. } => {}
            Outcome::Usage => room.push_str(USAGE),
            Outcome::BadInput { line, cause } => {
                room.push_str("line ");
                room.push_str(Buffer::new().format(*line));
                room.push_str(": ");
                room.push_str(word_of(*cause));
            }
            Outcome::ReadFault => room.push_str("read fault"),
            Outcome::WriteFault => room.push_str("write fault"),
            Outcome::NoMemory => room.push_str("no memory"),
            Outcome::TooLong { .. } => room.push_str("input longer than 16777216 bytes"),
            Outcome::Spent { spent } => {
                room.push_str("spent at ");
                put_limit(*spent, room);
            }
        }
    }

    /// The line for standard error, without its line feed; nothing where there is none.
    pub fn line(&self) -> ArrayString<LINE_ROOM>
        ensures line { result.bytes ≡ message_of self.now }
        ensures short { length result.bytes < LINE_ROOM }
    {
        let mut room = ArrayString::new();
        self.put_line(&mut room);
        room
    }

    /// What is said on standard error: the line with its line feed, or nothing.
    pub fn said(&self) -> ArrayString<LINE_ROOM>
        ensures { result.bytes ≡ said_of self.now }
    {
        let mut line = self.line();
        if !line.is_empty() {
            line.push('\n');
        }
        line
    }
}

/// The line for standard error, without its line feed; nothing where there is none.
impl fmt::Display for Outcome {
    ghost use Rattle.irqboard.specs.Answers.{message_of};
    ghost use Rattle.std.specs.Prelude.{Some};

    ghost output = { λ outcome. Some (message_of outcome) };

    fn fmt<W: fmt::Write>(&self, f: &mut fmt::Formatter<W>) -> fmt::Result {
        f.write_str(self.line().as_str())
    }
}
