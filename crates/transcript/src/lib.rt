//! Transcripts: the text of a run, printed and read.
#![tactic(auto)]

mod arrow;
mod fields;
mod fitting;
mod happenings;
mod laws;
mod printing;
mod reading;
mod replies;
mod spelled;
mod transcript;

pub use fitting::transcripts_fit;
pub use laws::texts_are_read;
pub use printing::{print, push_event};
pub use reading::{Stage, read};
pub use replies::{len_of, push_reply};
pub use transcript::Transcript;
