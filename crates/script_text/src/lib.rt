//! Scripts: the grammar of their lines, what is wrong with the first bad one, and what each actor of a script asks next.
//!
//! `docs/SCRIPTS.md` tells the grammar in words, and which definition says each sentence.
#![tactic(auto)]

mod actor_lines;
mod causes;
mod commands;
mod draft;
mod judging;
mod laws;
mod numbers;
mod progress;
mod rows;
mod script;
mod spelling;
mod task;
mod words;

pub use actor_lines::caller;
pub use causes::{LineFault, all_three, both, both_in_memory, or_bad};
pub use commands::command;
pub use judging::is_printable;
pub use laws::{scripts_fit, texts_are_read};
pub use numbers::{hex8, hex64, number8, number16, number64, push_hex, value_width};
pub use progress::{Phase, Progress};
pub use script::{Script, ScriptFault, parse};
pub use spelling::push_call;
pub use task::{ActorLine, Task};
pub use words::{
    cut, first_word, has_empty_word, is_none, next_word, one_word, three_words, two_words,
};
