//! Words of a line: a tail is nothing, or a space with words behind it.
ghost use Rattle.std.specs.Prelude.{◌≡◌, ◌+◌, ◌<◌, ◌≤◌, ◌∷◌, ◌++◌, [], length, slice_index, take, drop, nat_eq, position, Some, None, IfSome, MatchOption};
ghost use Rattle.std.specs.List.{list_any};
ghost use Rattle.script_text.specs.Words.{parts_of, more_parts, words_of, more_words, BeginsWith, is_empty, is_empty_word, one_of, two_of, three_of, cut_at};

// The place of the first byte of that value.
fn place_of(bytes: &[u8], byte: u8) -> Option<usize>
    ensures place { result ≡ position (λ b. nat_eq b byte) bytes.now }
    ensures inside { IfSome result (λ k. k < length bytes.now) }
{
    bytes.iter().position(|b| *b == byte)
}

// The first part of a text, and what stands behind it: nothing, or a byte of that value and more parts.
#[tactic(auto, using(crate::proofs::Cuts::cut_rules))]
pub fn first_part(text: &[u8], byte: u8) -> (&[u8], &[u8])
    ensures parts { parts_of byte text.now ≡ result.0.now ∷ more_parts byte result.1.now }
    ensures fewer { length result.1.now ≤ length text.now }
    ensures whole { text.now ≡ result.0.now ++ result.1.now }
    ensures begins { BeginsWith byte result.1.now }
{
    match place_of(text, byte) {
        None => (text, b"".as_slice()),
        Some(k) => text.split_at(k),
    }
}

// The next part, and what stands behind it.
pub fn next_part(tail: &[u8], byte: u8) -> Option<(&[u8], &[u8])>
    ensures parts { let parts = more_parts byte tail.now in
        MatchOption result (parts ≡ []) (λ r. parts ≡ r.0.now ∷ more_parts byte r.1.now) }
    ensures fewer { IfSome result (λ r. length r.1.now < length tail.now) }
    ensures whole { IfSome result (λ r. tail.now ≡ slice_index tail.now 0 ∷ (r.0.now ++ r.1.now)) }
    ensures begins { IfSome result (λ r. BeginsWith byte r.1.now) }
{
    match tail {
        [] => None,
        [_, text @ ..] => Some(first_part(text, byte)),
    }
}

/// What stands before the first byte of that value, and what stands behind it.
pub fn cut(bytes: &[u8], byte: u8) -> Option<(&[u8], &[u8])>
    ensures parts { let cut = cut_at byte bytes.now in
        MatchOption result (cut ≡ None) (λ r. cut ≡ Some (r.0.now, r.1.now)) }
    ensures fewer { IfSome result (λ r. length r.1.now < length bytes.now) }
{
    match place_of(bytes, byte) {
        None => None,
        Some(k) => {
            let (before, _) = bytes.split_at(k);
            let (_, behind) = bytes.split_at(k + 1);
            Some((before, behind))
        }
    }
}

/// The first word, and the tail behind it.
pub fn first_word(text: &[u8]) -> (&[u8], &[u8])
    ensures words { words_of text.now ≡ result.0.now ∷ more_words result.1.now }
    ensures begins { BeginsWith 32 result.1.now }
{
    first_part(text, b' ')
}

/// The next word of a tail, and the tail behind it. A tail is nothing, or a space with words behind it.
pub fn next_word(tail: &[u8]) -> Option<(&[u8], &[u8])>
    ensures words { let words = more_words tail.now in
        MatchOption result (words ≡ []) (λ r. words ≡ r.0.now ∷ more_words r.1.now) }
    ensures fewer { IfSome result (λ r. length r.1.now < length tail.now) }
    ensures whole { IfSome result (λ r. tail.now ≡ slice_index tail.now 0 ∷ (r.0.now ++ r.1.now)) }
    ensures begins { IfSome result (λ r. BeginsWith 32 r.1.now) }
{
    next_part(tail, b' ')
}

/// Whether no word is left.
pub fn is_none(tail: &[u8]) -> bool
    ensures { result ≡ is_empty (more_words tail.now) }
{
    next_word(tail).is_none()
}

/// One word, and no more.
pub fn one_word(tail: &[u8]) -> Option<&[u8]>
    ensures { let one = one_of (more_words tail.now) in
        MatchOption result (one ≡ None) (λ r. one ≡ Some r.now) }
{
    let (a, tail) = next_word(tail)?;
    if is_none(tail) { Some(a) } else { None }
}

/// Two words, and no more.
pub fn two_words(tail: &[u8]) -> Option<(&[u8], &[u8])>
    ensures { let two = two_of (more_words tail.now) in
        MatchOption result (two ≡ None) (λ r. two ≡ Some (r.0.now, r.1.now)) }
{
    let (a, tail) = next_word(tail)?;
    let (b, tail) = next_word(tail)?;
    if is_none(tail) { Some((a, b)) } else { None }
}

/// Three words, and no more.
#[tactic(auto, using(crate::proofs::Cuts::count_rules))]
pub fn three_words(tail: &[u8]) -> Option<(&[u8], &[u8], &[u8])>
    ensures { let three = three_of (more_words tail.now) in
        MatchOption result (three ≡ None) (λ r. three ≡ Some (r.0.now, r.1.now, r.2.now)) }
{
    let (a, tail) = next_word(tail)?;
    let (b, c) = two_words(tail)?;
    Some((a, b, c))
}

// Whether a word of a tail is empty.
fn has_empty_in(tail: &[u8]) -> bool
    ensures { result ≡ list_any is_empty_word (more_words tail.now) }
{
    let mut left = tail;
    while let Some((word, behind)) = next_word(left) {
        if word.is_empty() {
            return true;
        }
        left = behind;
    }
    false
}

/// Whether a word of a line is empty: two spaces stand together, or one at an end.
pub fn has_empty_word(line: &[u8]) -> bool
    ensures { result ≡ list_any is_empty_word (words_of line.now) }
{
    let (word, tail) = first_word(line);
    word.is_empty() || has_empty_in(tail)
}
