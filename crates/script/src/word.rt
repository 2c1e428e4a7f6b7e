// Words: what blanks separate.
ghost use Rattle.std.specs.Prelude.{◌≡◌, [], ◌∷◌, not, position, MatchOption};
ghost use Rattle.script.specs.Words.{blank, words};

// Whether a byte is a blank: a space or a tab.
fn is_blank(c: u8) -> bool
    ensures { result ≡ blank c }
{
    matches!(c, b' ' | b'\t')
}

// Where the first word of s starts, if there is one.
fn start(s: &[u8]) -> Option<usize>
    ensures { result ≡ position (λ c. not (blank c)) s.now }
{
    s.iter().position(|c| !is_blank(*c))
}

// Where the word ends that s starts with, if a blank ends it.
fn end(s: &[u8]) -> Option<usize>
    ensures { result ≡ position blank s.now }
{
    s.iter().position(|c| is_blank(*c))
}

// The first word of s and what follows it, if there is a word.
pub(crate) fn split_first(s: &[u8]) -> Option<(&[u8], &[u8])>
    ensures { MatchOption result (words s.now ≡ []) (λ p. words s.now ≡ p.0.now ∷ words p.1.now) }
{
    let (_, t) = s.split_at(start(s)?);
    Some(t.split_at(end(t).unwrap_or(t.len())))
}
