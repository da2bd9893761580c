// Whether a text is one of a list of words, or begins with one.
#![tactic(auto)]

ghost use Rattle.std.specs.Prelude.{◌≡◌, IsTrue, nat_eq, bytes_eq};
ghost use Rattle.std.specs.List.{list_any, starts_with};
ghost use Rattle.word_search.specs.Words.{is_rising};

/// Whether the text is one of the words, which are in order.
pub fn is_among(words: &[&str], text: &str) -> bool
    requires { IsTrue (is_rising words.now) }
    ensures { result ≡ list_any (λ w. bytes_eq text.now w.now) words.now }
{
    words.binary_search(&text).is_ok()
}

/// Whether the text begins with the prefix.
fn begins(text: &[u8], prefix: &[u8]) -> bool
    ensures { result ≡ starts_with nat_eq text.now prefix.now }
{
    text.starts_with(prefix)
}

/// Whether the text begins with one of the prefixes.
pub fn begins_any(prefixes: &[&str], text: &str) -> bool
    ensures { result ≡ list_any (λ p. starts_with nat_eq text.now p.now) prefixes.now }
{
    prefixes
        .iter()
        .any(|prefix| begins(text.as_bytes(), prefix.as_bytes()))
}
