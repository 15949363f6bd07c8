//! The usage line.

// The usage line of a list of words, each with the names of its numbers behind it.
macro_rules! usage {
    ($first:literal $(, $more:literal)*) => {
        concat!("usage: irqboard ", $first $(, " | ", $more)*)
    };
}

/// The usage line: the words that the program knows, in one list, each with the names of its numbers.
pub const USAGE: &str = usage!(
    "replay",
    "run",
    "check",
    "gen START LINES CPUS",
    "sum START LINES CPUS"
);
