//! What a piece has open, and whether another begins behind it.

ghost use Rattle.std.specs.Prelude.{◌≡◌, ◌+◌, ◌^◌, ◌<◌, ◌≤◌};
ghost use Rattle.reading_pieces.specs.Within.{assumed_behind, begins_behind, begins_with, begun_with, behind, first_step, implied_behind, implied_by, is_closed, is_implied, is_stated, last_behind, lets_behind, level_at, level_by, next_step, open_proof_behind, proof_behind, proof_of, takes_instance, takes_name};

use crate::head::begins_definition;
use crate::mark::{Mark, mark_of};
use reading_tokens::Token;

/// The proof of a theorem.
#[derive(Clone, Copy, Debug, Drop, PartialEq, Eq)]
pub enum Proof {
    /// No theorem stands here, or its proof has no steps.
    NoSteps,
    /// It may begin here, or go on behind the QED of its last step.
    Awaited,
    /// In its steps: the level of those whose QED is the last, and the level of the step here.
    Steps(u64, u64),
    /// In steps of which one has no level, so that nothing tells where they end.
    Endless,
}

/// What a piece has open.
#[derive(Clone, Copy, Debug, Drop, PartialEq, Eq)]
pub struct Within {
    /// How many LETs have no IN yet.
    pub lets: usize,
    /// How many ASSUMEs of a theorem have no PROVE yet.
    pub assumed: usize,
    pub proof: Proof,
    /// The token before.
    pub last: Mark,
}

impl Within {
    /// What is open behind the first token of a piece.
    pub(crate) fn begun_with(mark: Mark) -> Within
        ensures { result ≡ begun_with mark }
    {
        Within {
            lets: 0,
            assumed: 0,
            proof: proof_of(mark),
            last: mark,
        }
    }

    /// Whether no piece can begin here, whatever stands here.
    fn is_closed(&self) -> bool
        ensures { result ≡ is_closed self.now }
    {
        0 < self.assumed || matches!(self.proof, Proof::Steps(_, _) | Proof::Endless)
    }

    /// Whether an assumption here is one of a theorem's.
    fn is_stated(&self) -> bool
        ensures { result ≡ is_stated self.now.proof self.now.last }
    {
        matches!(self.proof, Proof::Awaited) && matches!(self.last, Mark::Theorem | Mark::Defined)
    }

    /// Whether an instance here has no piece of its own.
    fn takes_instance(&self) -> bool
        ensures { result ≡ takes_instance self.now.last }
    {
        matches!(self.last, Mark::Defined | Mark::Local)
    }

    /// Whether a definition here has no piece of its own.
    fn takes_name(&self) -> bool
        ensures { result ≡ takes_name self.now.last }
    {
        matches!(
            self.last,
            Mark::Local | Mark::Assume | Mark::Theorem | Mark::Less | Mark::Greater | Mark::Joins
        )
    }

    /// Whether a piece begins with a token of this mark, where a definition begins or not.
    fn begins_with(&self, mark: Mark, defines: bool) -> bool
        ensures { result ≡ begins_with self.now mark defines }
    {
        match mark {
            Mark::Declare | Mark::Theorem | Mark::Dashes | Mark::Local | Mark::Use => true,
            Mark::Assume => !self.is_stated(),
            Mark::Recursive => self.lets == 0,
            Mark::Instance => !self.takes_instance() && self.lets == 0,
            Mark::Name => !self.takes_name() && self.lets == 0 && defines,
            _ => false,
        }
    }

    /// Whether a piece begins at these tokens.
    #[tactic(auto, unfolding(crate::specs::Within::begins_behind))]
    pub(crate) fn begins_behind(&self, tokens: &[Token]) -> bool
        ensures { result ≡ begins_behind self.now tokens.now }
    {
        match tokens {
            [first, ..] => {
                if self.is_closed() {
                    return false;
                }
                self.begins_with(mark_of(first), begins_definition(tokens))
            }
            _ => false,
        }
    }

    /// What is open behind the first of these tokens.
    #[tactic(auto, unfolding(crate::specs::Within::behind))]
    pub(crate) fn behind(&self, tokens: &[Token]) -> Within
        requires lets { self.now.lets + 1 < 2 ^ 64 }
        requires assumed { self.now.assumed + 1 < 2 ^ 64 }
        ensures value { result ≡ behind self.now tokens.now }
        ensures lets { result.lets ≤ self.now.lets + 1 }
        ensures assumed { result.assumed ≤ self.now.assumed + 1 }
    {
        match tokens {
            [first, ..] => {
                let mark = mark_of(first);
                Within {
                    lets: lets_behind(self.lets, mark),
                    assumed: assumed_behind(self.proof, self.assumed, mark),
                    proof: self.proof_behind(mark, level_at(tokens), is_implied(tokens)),
                    last: last_behind(self.last, mark),
                }
            }
            _ => *self,
        }
    }

    /// The proof behind a token of this mark, which begins a step of this level, one without a level, or none.
    fn proof_behind(&self, mark: Mark, level: Option<u64>, implied: bool) -> Proof
        ensures { result ≡ open_proof_behind self.now mark level implied }
    {
        if 0 < self.assumed {
            return self.proof;
        }
        implied_behind(self.proof, implied, proof_behind(self.proof, mark, level))
    }
}

/// The proof that may begin behind the first token of a piece.
fn proof_of(mark: Mark) -> Proof
    ensures { result ≡ proof_of mark }
{
    match mark {
        Mark::Theorem => Proof::Awaited,
        _ => Proof::NoSteps,
    }
}

/// The LETs that are open behind a token.
fn lets_behind(lets: usize, mark: Mark) -> usize
    requires { lets + 1 < 2 ^ 64 }
    ensures value { result ≡ lets_behind lets mark }
    ensures bound { result ≤ lets + 1 }
{
    match mark {
        Mark::Let => lets + 1,
        Mark::In => lets.saturating_sub(1),
        _ => lets,
    }
}

/// The ASSUMEs that are open behind a token.
fn assumed_behind(proof: Proof, assumed: usize, mark: Mark) -> usize
    requires { assumed + 1 < 2 ^ 64 }
    ensures value { result ≡ assumed_behind proof assumed mark }
    ensures bound { result ≤ assumed + 1 }
{
    match proof {
        Proof::Awaited => match mark {
            Mark::Assume => assumed + 1,
            Mark::Prove => assumed.saturating_sub(1),
            _ => assumed,
        },
        _ => assumed,
    }
}

/// The proof behind a token of this mark, which begins a step of this level or none.
fn proof_behind(proof: Proof, mark: Mark, level: Option<u64>) -> Proof
    ensures { result ≡ proof_behind proof mark level }
{
    match proof {
        Proof::NoSteps => Proof::NoSteps,
        Proof::Endless => Proof::Endless,
        Proof::Awaited => match mark {
            Mark::Leaf => Proof::NoSteps,
            _ => first_step(level),
        },
        Proof::Steps(until, last) => match mark {
            Mark::Qed => {
                if until == last {
                    return Proof::Awaited;
                }
                Proof::Steps(until, last)
            }
            _ => next_step(level, until, last),
        },
    }
}

/// The proof behind a token, where it begins a step without a level or not.
fn implied_behind(proof: Proof, implied: bool, behind: Proof) -> Proof
    ensures { result ≡ implied_behind proof implied behind }
{
    match proof {
        Proof::NoSteps | Proof::Endless => behind,
        Proof::Awaited | Proof::Steps(_, _) => {
            if implied {
                return Proof::Endless;
            }
            behind
        }
    }
}

/// The token before, for what stands behind a token of this mark.
fn last_behind(last: Mark, mark: Mark) -> Mark
    ensures { result ≡ last_behind last mark }
{
    match last {
        Mark::Joins => match mark {
            Mark::Close => Mark::Joins,
            _ => mark,
        },
        _ => mark,
    }
}

/// The proof where its first step may begin.
fn first_step(level: Option<u64>) -> Proof
    ensures { result ≡ first_step level }
{
    match level {
        Some(level) => Proof::Steps(level, level),
        None => Proof::Awaited,
    }
}

/// The proof where a further step may begin.
fn next_step(level: Option<u64>, until: u64, last: u64) -> Proof
    ensures { result ≡ next_step level until last }
{
    match level {
        Some(level) => Proof::Steps(until, level),
        None => Proof::Steps(until, last),
    }
}

/// The level of the step that begins the tokens, if one does.
#[tactic(auto, unfolding(crate::specs::Within::level_at))]
fn level_at(tokens: &[Token]) -> Option<u64>
    ensures { result ≡ level_at tokens.now }
{
    match tokens {
        [first, second, third, ..] => level_by(mark_of(first), mark_of(second), mark_of(third)),
        _ => None,
    }
}

/// The number between `<` and `>`.
fn level_by(first: Mark, second: Mark, third: Mark) -> Option<u64>
    ensures { result ≡ level_by first second third }
{
    match (first, second, third) {
        (Mark::Less, Mark::Number(level), Mark::Greater) => Some(level),
        _ => None,
    }
}

/// Whether a step without a level begins the tokens.
#[tactic(auto, unfolding(crate::specs::Within::is_implied))]
fn is_implied(tokens: &[Token]) -> bool
    ensures { result ≡ is_implied tokens.now }
{
    match tokens {
        [first, second, third, ..] => implied_by(mark_of(first), mark_of(second), mark_of(third)),
        _ => false,
    }
}

/// Whether a symbol stands between `<` and `>`.
fn implied_by(first: Mark, second: Mark, third: Mark) -> bool
    ensures { result ≡ implied_by first second third }
{
    matches!(
        (first, second, third),
        (Mark::Less, Mark::Joins, Mark::Greater)
    )
}
