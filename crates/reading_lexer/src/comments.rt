//! Where comments end.

ghost use Rattle.std.specs.Prelude.{◌≡◌, ◌≤◌, ◌&&◌, ◌==◌, length, drop, IfSome, MatchOption, None, Some};
ghost use Rattle.reading_tokens.specs.Shapes.{after_comment};

fn opens(a: u8, b: u8) -> bool
    ensures { result ≡ (a == 40 && b == 42) }
{
    a == b'(' && b == b'*'
}

fn closes(a: u8, b: u8) -> bool
    ensures { result ≡ (a == 42 && b == 41) }
{
    a == b'*' && b == b')'
}

/// Where a comment ends, behind its opening.
pub fn comment_end(text: &[u8]) -> Option<usize>
    ensures bound { IfSome result (λ end. end ≤ length text.now) }
    ensures end { MatchOption result (after_comment 1 text.now ≡ None) (λ end. after_comment 1 text.now ≡ Some (drop end text.now)) }
{
    let mut depth: usize = 1;
    let mut at = 0;
    while text.len() - at >= 2 {
        if opens(text[at], text[at + 1]) {
            depth += 1;
            at += 2;
        } else if closes(text[at], text[at + 1]) {
            at += 2;
            if depth <= 1 {
                return Some(at);
            }
            depth -= 1;
        } else {
            at += 1;
        }
    }
    None
}
