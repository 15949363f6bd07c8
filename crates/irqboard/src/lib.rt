//! The interrupt board's top call: the words of a command line and bytes in, a transcript, a verdict, a generated text or a named answer out.
//!
//! `irqboard` is all that the program does, over any source, sink and gate; `asked`, `said` and the report of `Ended` add the words
//! of the command line, the line on standard error and the exit status. Its contract says of each answer when it comes: `Works` says what
//! is written at `Outcome::Fine`, `Outcome::Spent` and `Outcome::NotLegal`, and `Benches` what `run` leaves on its `Bench`.
//!
//! Reading order of the definitions: `Parting`, `Runs`, `Works`, `Commands`, `Input`, `Output`, `Answers`, `Benches`, `Making`, `Words`.
#![tactic(auto)]

mod bench;
mod command;
mod live;
mod live_top;
mod live_work;
mod made;
mod making;
mod outcome;
mod parting;
mod program;
mod reading;
mod top;
mod usage;
mod words;
mod work;
mod writing;

pub use bench::Bench;
pub use command::Command;
pub use live::Live;
pub use live_top::run_text;
pub use made::{gen_text, sum_text};
pub use making::{Making, Storm};
pub use outcome::Outcome;
pub use program::{Answered, Ended, asked};
pub use top::{check_text, irqboard, replay};
pub use usage::USAGE;
