//! What holds of every text and of every script.
ghost use Rattle.std.specs.Prelude.{◌≡◌, ℕ, List, Ok};
ghost use Rattle.script_text.specs.Scripts.{Script, script_of};
ghost use Rattle.script_text.specs.Spelling.{text_of};
ghost use Rattle.script_text.specs.Fitting.{IsScript};

/// Each script of the grammar has a text: its one spelling is read as that script.
pub fn texts_are_read()
    ensures { (s : Script) → IsScript s → script_of (text_of s) ≡ Ok s }
{}

/// What is read is a script of the grammar: each number is of its type or range, and each actor may ask what its lines ask.
pub fn scripts_fit()
    ensures { (bytes : List ℕ) (s : Script) → script_of bytes ≡ Ok s → IsScript s }
{}
