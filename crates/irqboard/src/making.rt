//! The words that make a text out of their numbers.
ghost use Rattle.std.specs.Prelude.{◌≡◌, ◌≤◌, IfSome};
ghost use Rattle.workload_gen.specs.Laws.{IsInRange};
ghost use Rattle.irqboard.specs.Making.{number_in, storm_of, making_of, CanBeMade};

use io_edge::Word;
use irq_base::MAX_CPUS;
use script_text::number64;

/// The three numbers of a generated script.
#[derive(Clone, Copy, Debug, PartialEq, Eq)]
pub struct Storm {
    /// Where the draws start.
    pub start: u64,
    /// How many lines are drawn, at most 400,000.
    pub lines: u32,
    /// How many processors there are, 1 to `MAX_CPUS`.
    pub cpus: u16,
}

/// A word that makes a text out of its numbers, with these numbers. Its text is a function of them, and it reads nothing.
#[derive(Clone, Copy, Debug, PartialEq, Eq)]
pub enum Making {
    /// `gen START LINES CPUS`: the generated script.
    Gen(Storm),
    /// `sum START LINES CPUS`: the eight lines that the replay of the generated script counts.
    Sum(Storm),
}

// The decimal number of a range that a word is, if it is one.
fn number_in(least: u64, most: u64, word: &Word) -> Option<u64>
    ensures value { result ≡ number_in least most word.now }
    ensures range { IfSome result (λ n. (least ≤ n) × (n ≤ most)) }
{
    match number64(word.bytes()) {
        Ok(n) => {
            if least <= n && n <= most {
                Some(n)
            } else {
                None
            }
        }
        Err(_) => None,
    }
}

// The three numbers of a generated script that these words are, if they are such.
fn storm_of(numbers: &[Word]) -> Option<Storm>
    ensures words { result ≡ storm_of numbers.now }
    ensures range { IfSome result (λ storm. IsInRange storm.lines storm.cpus) }
{
    match numbers {
        [start, lines, cpus] => {
            let start = number_in(0, u64::MAX, start);
            let lines = number_in(0, 400_000, lines);
            let cpus = number_in(1, MAX_CPUS as u64, cpus);
            match (start, lines, cpus) {
                (Some(start), Some(lines), Some(cpus)) => Some(Storm {
                    start,
                    lines: lines as u32,
                    cpus: cpus as u16,
                }),
                _ => None,
            }
        }
        _ => None,
    }
}

/// What these words ask to be made, if they ask for that.
pub fn making_of(words: &[Word]) -> Option<Making>
    ensures words { result ≡ making_of words.now }
    ensures range { IfSome result CanBeMade }
{
    match words {
        [word, numbers @ ..] => {
            if word.bytes() == b"gen".as_slice() {
                Some(Making::Gen(storm_of(numbers)?))
            } else if word.bytes() == b"sum".as_slice() {
                Some(Making::Sum(storm_of(numbers)?))
            } else {
                None
            }
        }
        [] => None,
    }
}
