//! The words of the command line.
ghost use Rattle.std.specs.Prelude.{◌≡◌, IfOk};
ghost use Rattle.std.specs.IoError.{error_kind};
ghost use Rattle.irqboard.specs.Words.{words_in, without_words};

use crate::outcome::Outcome;
use io_edge::Word;
use std::alloc::{AllocError, Global};
use std::env::Args;
use std::io;

/// The words of these texts, of which the first is the program's name.
pub fn words_of(alloc: Global, texts: Args) -> Result<Vec<Word>, AllocError>
    ensures { IfOk result (λ words. words.items ≡ words_in texts) }
{
    texts.skip(1).map(|text| Word::of(text)).collect(alloc)
}

/// What comes of texts that could not be had.
pub fn without_words(error: &io::Error) -> Outcome
    ensures { result ≡ without_words (error_kind error.now) }
{
    match error.kind() {
        io::ErrorKind::OutOfMemory => Outcome::NoMemory,
        _ => Outcome::Usage,
    }
}
