//! What holds of every transcript.
ghost use Rattle.std.specs.Prelude.{◌≡◌, ℕ, List, Ok};
ghost use Rattle.transcript.specs.declared.transcript.Transcript.{Transcript as Run};
ghost use Rattle.transcript.specs.Fitting.{IsTranscript};
ghost use Rattle.transcript.specs.Reading.{transcript_of};
ghost use Rattle.transcript.specs.Text.{text_of};

/// Each transcript's text is read as that transcript, whatever number its first line has.
pub fn texts_are_read()
    ensures { (first : ℕ) (run : Run) → IsTranscript run → transcript_of first (text_of run) ≡ Ok run }
{}
