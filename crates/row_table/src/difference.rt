//! A table and what is played of it.
use crate::player::Player;
use crate::words::is_passed_over;
use board_step::Board;
use std::alloc::{AllocError, Global};

// A table, played to its end.
fn played(alloc: Global, table: &str) -> Result<Player, AllocError> {
    let mut player = Player::new(alloc);
    for line in table.lines() {
        player.play(line.trim())?;
    }
    Ok(player)
}

// The first line of the table that was played otherwise, with the line that was played.
fn first_difference<'a>(table: &'a str, played: &'a str) -> Option<(&'a str, &'a str)> {
    let mut answers = played.lines();
    for line in table.lines() {
        let want = line.trim();
        if !is_passed_over(want) {
            let got = answers.next().unwrap_or("");
            if got != want {
                return Some((want, got));
            }
        }
    }
    match answers.next() {
        None => None,
        Some(got) => Some(("", got)),
    }
}

/// What is wrong with the first line of a table that its board does not answer so; `None` where each line is answered so.
pub fn fault_of(alloc: Global, table: &str) -> Result<Option<String>, AllocError> {
    let player = played(alloc, table)?;
    match first_difference(table, player.text()) {
        None => Ok(None),
        Some((want, got)) => Ok(Some(format!(in alloc;
            "the table has: {want}\nthe board has: {got}"
        )?)),
    }
}

/// The last board of a table as it is at the end, where each line is answered so.
pub fn board_after(alloc: Global, table: &str) -> Result<Option<Board>, AllocError> {
    let player = played(alloc, table)?;
    match first_difference(table, player.text()) {
        None => Ok(player.into_board()),
        Some(_) => Ok(None),
    }
}
