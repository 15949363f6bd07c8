//! The arrow of an entry, between its call and its reply.
ghost use Rattle.std.specs.Prelude.{◌≡◌, None, Some, MatchOption};
ghost use Rattle.script_text.specs.Words.{more_words, BeginsWith};
ghost use Rattle.transcript.specs.Reading.{before_arrow, behind_arrow};

use script_text::next_word;

// The words before the first arrow, and those behind it, where there is one.
#[tactic(auto, using(crate::proofs::Arrows::arrow_rules))]
pub fn at_arrow(tail: &[u8]) -> (&[u8], Option<&[u8]>)
    requires { BeginsWith 32 tail.now }
    ensures before { more_words result.0.now ≡ before_arrow (more_words tail.now) }
    ensures behind { let behind = behind_arrow (more_words tail.now) in
        MatchOption result.1 (behind ≡ None) (λ r. behind ≡ Some (more_words r.now)) }
{
    let mut left = tail;
    while let Some((word, behind)) = next_word(left) {
        if word == b"->".as_slice() {
            let (before, _) = tail.split_at(tail.len() - left.len());
            return (before, Some(behind));
        }
        left = behind;
    }
    (tail, None)
}
