//! Where a module's heading and its pieces end.

ghost use Rattle.std.specs.Prelude.{◌≡◌, ◌+◌, ◌<◌, ◌≤◌, [], length, take, drop, IfSome, IfNone};
ghost use Rattle.reading_pieces.specs.Lengths.{length_behind};
ghost use Rattle.reading_pieces.specs.Pieces.{IsHeading, IsPiece};

use crate::mark::{Mark, mark_of};
use crate::within::Within;
use reading_tokens::Token;

/// How many tokens a piece goes on with.
#[tactic(auto, unfolding(crate::specs::Lengths::length_behind))]
fn length_behind(begun: Within, tokens: &[Token]) -> usize
    requires lets { begun.lets ≡ 0 }
    requires assumed { begun.assumed ≡ 0 }
    ensures value { result ≡ length_behind begun tokens.now }
    ensures within { result ≤ length tokens.now }
{
    let mut within = begun;
    let mut count = 0;
    let mut rest = tokens;
    while let [_, behind @ ..] = rest {
        if within.begins_behind(rest) {
            return count;
        }
        within = within.behind(rest);
        count += 1;
        rest = behind;
    }
    count
}

/// The heading of a module at the front of its tokens, and what stands behind it: dashes, MODULE, its name, dashes, and all up to its
/// first piece. There is none where fewer than four tokens stand.
pub fn heading_length(tokens: &[Token]) -> Option<usize>
    ensures heading { IfSome result (λ n. IsHeading (take n tokens.now) (drop n tokens.now)) }
    ensures within { IfSome result (λ n. n ≤ length tokens.now) }
    ensures short { IfNone result (length tokens.now < 4) }
{
    match tokens {
        [_, _, _, _, behind @ ..] => {
            Some(4 + length_behind(Within::begun_with(Mark::Dashes), behind))
        }
        _ => None,
    }
}

/// How many of the tokens are the first piece, if there are tokens.
pub fn piece_length(tokens: &[Token]) -> Option<usize>
    ensures piece { IfSome result (λ n. IsPiece (take n tokens.now) (drop n tokens.now)) }
    ensures some { IfSome result (λ n. 0 < n) }
    ensures within { IfSome result (λ n. n ≤ length tokens.now) }
    ensures none { IfNone result (tokens.now ≡ []) }
{
    match tokens {
        [first, behind @ ..] => {
            Some(1 + length_behind(Within::begun_with(mark_of(first)), behind))
        }
        _ => None,
    }
}
