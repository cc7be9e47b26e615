//! The end of a comment that runs over lines.
ghost use Rattle.std.specs.Prelude.{◌≡◌, ◌≤◌, length, IfSome};
ghost use Rattle.prv_lex.specs.Comments.{closing as closing_of};

/// How many bytes a text has up to and with its first `*/`.
// Out of line, so that the loop over the tokens stays small.
#[inline(never)]
pub fn closing(text: &[u8]) -> Option<usize>
    ensures value { result ≡ closing_of text.now }
    ensures within { IfSome result (λ len. len ≤ length text.now) }
{
    for i in 0..text.len() {
        if text[i..].starts_with(b"*/") {
            return Some(i + 2);
        }
    }
    None
}
