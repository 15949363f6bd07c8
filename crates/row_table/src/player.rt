//! A table is played: its calls are asked, and the lines of what they are answered are written down.
use crate::words::{ask, first_call, is_passed_over, script_of, tell_due, tell_reach};
use board_step::Board;
use std::alloc::{AllocError, Global};
use std::fmt::Write;

// What a line asks of a board.
#[derive(Clone, Copy)]
enum Asked {
    Reply,
    Reach,
    Due,
}

// What a line asks, behind the words of the call and the word that parts these from the rest of the line.
fn parted(line: &str) -> Option<(&str, &str, Asked)> {
    if let Some((call, _)) = line.split_once(" -> ") {
        return Some((call, " -> ", Asked::Reply));
    }
    if let Some((call, _)) = line.split_once(" reaches ") {
        return Some((call, " reaches", Asked::Reach));
    }
    if let Some((caller, _)) = line.split_once(" due ") {
        return Some((caller, " due", Asked::Due));
    }
    None
}

/// A table that is being played.
#[derive(Drop)]
pub struct Player {
    alloc: Global,
    /// The headers of the board that is there, each with its line feed.
    headers: String,
    board: Option<Board>,
    /// What was played, each line with its line feed.
    text: String,
}

impl Player {
    /// No board is there.
    pub fn new(alloc: Global) -> Player {
        Player {
            alloc,
            headers: String::new(alloc),
            board: None,
            text: String::new(alloc),
        }
    }

    /// The lines as they were played.
    pub fn text(&self) -> &str {
        self.text.as_str()
    }

    /// The board that is there.
    pub fn into_board(self) -> Option<Board> {
        self.board
    }

    // A header: a new board is there.
    fn power_on(&mut self, line: &str) -> Result<(), AllocError> {
        if line.starts_with("cpus ") {
            self.headers.clear();
        }
        write!(self.headers, "{line}\n")?;
        self.board = match script_of(self.alloc, self.headers.as_str(), "")? {
            Some(script) => Board::power_on(self.alloc, &script.shape()).ok(),
            None => None,
        };
        match self.board {
            Some(_) => write!(self.text, "{line}"),
            None => write!(self.text, "no board"),
        }
    }

    // The words of a call: the board is asked.
    fn answer(&mut self, words: &str, asked: Asked) -> Result<(), AllocError> {
        let tail = match asked {
            Asked::Due => " ack",
            _ => "",
        };
        let line = format!(in self.alloc; "{words}{tail}")?;
        let script = script_of(self.alloc, self.headers.as_str(), line.as_str())?;
        match (&mut self.board, script.as_ref().and_then(first_call)) {
            (Some(board), Some((caller, call))) if call.allowed(caller, &board.shape()) =>
                match asked {
                    Asked::Reply => ask(board, caller, call, &mut self.text),
                    Asked::Reach => tell_reach(board, caller, call, &mut self.text),
                    Asked::Due => tell_due(board, caller, &mut self.text),
                },
            _ => self.text.push_str("no call"),
        }
    }

    /// Plays a line of the table; what it tells is not looked at.
    pub fn play(&mut self, line: &str) -> Result<(), AllocError> {
        if is_passed_over(line) || line.starts_with("+ ") {
            return Ok(());
        }
        match parted(line) {
            None => self.power_on(line)?,
            Some((words, arrow, asked)) => {
                write!(self.text, "{words}{arrow}")?;
                self.answer(words, asked)?;
            }
        }
        self.text.push_str("\n")
    }
}
