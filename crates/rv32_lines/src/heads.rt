//! Words at the ends of a text.

ghost use Rattle.std.specs.Prelude.{◌≡◌, ℕ, ◌++◌, List, IfSome, MatchOption};

/// What stands after a word.
pub(crate) fn behind<'a>(text: &'a [u8], word: &[u8]) -> Option<&'a [u8]>
    ensures some { IfSome result (λ r. text.now ≡ word.now ++ r.now) }
    ensures only { (rest : List ℕ) → text.now ≡ word.now ++ rest
        → MatchOption result ⊥ (λ r. r.now ≡ rest) }
{
    text.strip_prefix(word)
}

/// What stands before a word.
pub(crate) fn before<'a>(name: &'a [u8], suffix: &[u8]) -> Option<&'a [u8]>
    ensures some { IfSome result (λ r. name.now ≡ r.now ++ suffix.now) }
    ensures only { (front : List ℕ) → name.now ≡ front ++ suffix.now
        → MatchOption result ⊥ (λ r. r.now ≡ front) }
{
    name.strip_suffix(suffix)
}
