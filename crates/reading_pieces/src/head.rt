//! Where definitions begin.

ghost use Rattle.std.specs.Prelude.{◌≡◌};
ghost use Rattle.reading_pieces.specs.Heads.{begins_defined, begins_definition, begins_rest, closes_defined};

use crate::mark::{Mark, mark_of};
use base_core::limits::MAX_HEAD_BRACKETS;
use reading_tokens::Token;

/// Whether `==` begins the tokens.
#[tactic(auto, unfolding(crate::specs::Heads::begins_defined))]
fn begins_defined(tokens: &[Token]) -> bool
    ensures { result ≡ begins_defined tokens.now }
{
    match tokens {
        [first, ..] => matches!(mark_of(first), Mark::Defined),
        _ => false,
    }
}

/// Whether the bracket that stands before the tokens closes among them, with `==` behind it.
#[tactic(auto, unfolding(crate::specs::Heads::closes_defined))]
fn closes_defined(tokens: &[Token]) -> bool
    ensures { result ≡ closes_defined 1 tokens.now }
{
    let mut depth: usize = 1;
    let mut rest = tokens;
    while let [first, behind @ ..] = rest {
        match mark_of(first) {
            Mark::Open => {
                if depth >= MAX_HEAD_BRACKETS {
                    return false;
                }
                depth += 1;
            }
            Mark::Close => {
                if depth == 1 {
                    return begins_defined(behind);
                }
                depth -= 1;
            }
            Mark::Defined => return false,
            _ => {}
        }
        rest = behind;
    }
    false
}

/// Whether what stands behind the name of a definition begins the tokens.
#[tactic(auto, unfolding(crate::specs::Heads::begins_rest))]
fn begins_rest(tokens: &[Token]) -> bool
    ensures { result ≡ begins_rest tokens.now }
{
    match tokens {
        [first, behind @ ..] => match mark_of(first) {
            Mark::Open => closes_defined(behind),
            Mark::Defined => true,
            _ => false,
        },
        _ => false,
    }
}

/// Whether a definition begins the tokens.
#[tactic(auto, unfolding(crate::specs::Heads::begins_definition))]
pub(crate) fn begins_definition(tokens: &[Token]) -> bool
    ensures { result ≡ begins_definition tokens.now }
{
    match tokens {
        [first, behind @ ..] => match mark_of(first) {
            Mark::Name => begins_rest(behind),
            _ => false,
        },
        _ => false,
    }
}
