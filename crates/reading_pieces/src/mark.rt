//! What the pieces of a module tell apart among tokens.

ghost use Rattle.std.specs.Prelude.{◌≡◌};
ghost use Rattle.reading_pieces.specs.Marks.{foreign_mark, is_use, kind_mark, mark_of, symbol_mark, word_mark};
ghost use Rattle.reading_pieces.specs.Pieces.{has_module};

use base_core::Text;
use reading_tokens::{Foreign, Kind, Symbol, Token, Word};

/// What a token is to the pieces of a module.
#[derive(Clone, Copy, Debug, Drop, PartialEq, Eq)]
pub enum Mark {
    /// `CONSTANT`, `CONSTANTS`, `VARIABLE` or `VARIABLES`
    Declare,
    /// `ASSUME`, `ASSUMPTION` or `AXIOM`
    Assume,
    /// `THEOREM`, `LEMMA`, `PROPOSITION` or `COROLLARY`
    Theorem,
    /// Four or more `-`.
    Dashes,
    /// `LOCAL`
    Local,
    /// `USE` or `HIDE`
    Use,
    /// `RECURSIVE`
    Recursive,
    /// `INSTANCE`
    Instance,
    /// `MODULE`, but in the module's own heading
    Nested,
    /// `LET`
    Let,
    /// `IN`
    In,
    /// `PROVE`
    Prove,
    /// `BY`, `OBVIOUS` or `OMITTED`, which begin a proof that has no steps
    Leaf,
    /// `QED`
    Qed,
    Name,
    Number(u64),
    /// `==`
    Defined,
    /// `<`
    Less,
    /// `>`
    Greater,
    /// `(` or `[`
    Open,
    /// `)`, `]` or `]_`
    Close,
    /// A symbol behind which a term goes on, as an operator or a comma, so that no unit ends with it.
    Joins,
    /// Any other token.
    Other,
}

#[tactic(auto, unfolding(crate::specs::Marks::word_mark))]
fn word_mark(word: Word) -> Mark
    ensures { result ≡ word_mark word }
{
    match word {
        Word::Constant | Word::Constants | Word::Variable | Word::Variables => Mark::Declare,
        Word::Assume | Word::Assumption | Word::Axiom => Mark::Assume,
        Word::Theorem | Word::Lemma | Word::Proposition | Word::Corollary => Mark::Theorem,
        Word::Let => Mark::Let,
        Word::In => Mark::In,
        _ => Mark::Other,
    }
}

#[tactic(auto, unfolding(crate::specs::Marks::symbol_mark))]
fn symbol_mark(symbol: Symbol) -> Mark
    ensures { result ≡ symbol_mark symbol }
{
    match symbol {
        Symbol::Defined => Mark::Defined,
        Symbol::Less => Mark::Less,
        Symbol::Greater => Mark::Greater,
        Symbol::OpenParenthesis | Symbol::OpenBracket => Mark::Open,
        Symbol::CloseParenthesis | Symbol::CloseBracket | Symbol::CloseBracketSubscript => {
            Mark::Close
        }
        Symbol::CloseBrace
        | Symbol::CloseTuple
        | Symbol::CloseTupleSubscript
        | Symbol::At
        | Symbol::Prime => Mark::Other,
        _ => Mark::Joins,
    }
}

#[tactic(auto, unfolding(crate::specs::Marks::foreign_mark))]
fn foreign_mark(foreign: Foreign) -> Mark
    ensures { result ≡ foreign_mark foreign }
{
    match foreign {
        Foreign::Local => Mark::Local,
        Foreign::Instance => Mark::Instance,
        Foreign::Recursive => Mark::Recursive,
        Foreign::Prove => Mark::Prove,
        Foreign::By | Foreign::Obvious | Foreign::Omitted => Mark::Leaf,
        Foreign::Qed => Mark::Qed,
        Foreign::Module => Mark::Nested,
        Foreign::Lambda | Foreign::With | Foreign::Proof | Foreign::Underscore => Mark::Other,
        Foreign::CaretPlus | Foreign::CaretStar | Foreign::CaretHash => Mark::Other,
        _ => Mark::Joins,
    }
}

/// USE and HIDE begin units, though the lexer takes them for names.
fn is_use(name: &Text) -> bool
    ensures { result ≡ is_use name.now }
{
    name.as_str() == "USE" || name.as_str() == "HIDE"
}

#[tactic(auto, unfolding(crate::specs::Marks::kind_mark))]
fn kind_mark(kind: &Kind) -> Mark
    ensures { result ≡ kind_mark kind.now }
{
    match kind {
        Kind::Name(name) => {
            if is_use(name) {
                return Mark::Use;
            }
            Mark::Name
        }
        Kind::Number(number) => Mark::Number(number.unsigned_abs()),
        Kind::Str(_) => Mark::Other,
        Kind::Dashes => Mark::Dashes,
        Kind::Equals => Mark::Other,
        Kind::Fair => Mark::Other,
        Kind::Word(word) => word_mark(*word),
        Kind::Symbol(symbol) => symbol_mark(*symbol),
        Kind::Foreign(foreign) => foreign_mark(*foreign),
        Kind::End => Mark::Other,
    }
}

/// What a token is to the pieces of a module.
pub fn mark_of(token: &Token) -> Mark
    ensures { result ≡ mark_of token.now }
{
    kind_mark(&token.kind)
}

/// Whether a module stands among the tokens, behind the heading of the one that they are of.
pub fn is_nested(tokens: &[Token]) -> bool
    ensures { result ≡ has_module tokens.now }
{
    tokens.iter().any(|token| mark_of(token) == Mark::Nested)
}
