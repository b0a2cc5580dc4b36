//! What the grammar of modules tells apart among tokens.

ghost use Rattle.std.specs.Prelude.{◌≡◌, ◌<◌, ◌+◌, [], ◌∷◌, false, None, length, drop, IfNone, IfSome, OnOk, OnErr, IfOk, IfErr};
ghost use Rattle.reading_trees.specs.declared.laid.Laid.TheVariants.{Plain};
ghost use Rattle.reading_tokens.specs.declared.token.Kind.TheVariants as kinds;
ghost use Rattle.reading_tokens.specs.declared.token.Word.TheVariants as words;
ghost use Rattle.reading_tokens.specs.declared.token.Symbol.TheVariants as symbols;
ghost use Rattle.reading_trees.specs.Grammar.{some_token, sign, word};
ghost use Rattle.reading_trees.specs.Modules.{LaidEndsOnce, underscore};
ghost use Rattle.reading_expressions.specs.Refused.{IsRefusedAt};
ghost use Rattle.reading_units.specs.Marks.{word_mark, symbol_mark, foreign_mark, kind_mark, first_mark, begins_end};
ghost use Rattle.reading_units.specs.Parts.{Part, MarkText, IsMark};
ghost use Rattle.reading_units.specs.Reads.{Lacks};
ghost use Rattle.reading_units.specs.Rests.{Marked};
ghost use Rattle.reading_units.specs.declared.marks.Mark.TheVariants as marks;

use reading_expressions::{ParseFault, fault_at};
use reading_tokens::{Foreign, Kind, Symbol, Token, Word};
use reading_trees::Laid;

/// A token by its part in the grammar of modules.
#[derive(Clone, Copy, Debug, Drop, PartialEq, Eq)]
pub enum Mark {
    Name,
    Dashes,
    Equals,
    Comma,
    /// `(`
    OpenParenthesis,
    /// `)`
    CloseParenthesis,
    /// `_`
    Underscore,
    /// `==`
    Defined,
    /// `MODULE`
    Heading,
    Extends,
    Variables,
    Constants,
    /// `RECURSIVE`
    Recursive,
    /// `ASSUME`, `ASSUMPTION` or `AXIOM`
    Assume,
    /// `THEOREM`, `LEMMA`, `PROPOSITION` or `COROLLARY`
    Theorem,
    /// `INSTANCE`
    Instance,
    /// `WITH`
    With,
    /// `<-`
    Arrow,
}

#[tactic(auto, unfolding(crate::specs::Marks::word_mark))]
fn word_mark(word: Word) -> Option<Mark>
    ensures mark { IfSome result (λ m. IsMark m (kinds.Word word)) }
    ensures told { result ≡ word_mark word }
{
    match word {
        Word::Module => Some(Mark::Heading),
        Word::Extends => Some(Mark::Extends),
        Word::Variable | Word::Variables => Some(Mark::Variables),
        Word::Constant | Word::Constants => Some(Mark::Constants),
        Word::Assume | Word::Assumption | Word::Axiom => Some(Mark::Assume),
        Word::Theorem | Word::Lemma | Word::Proposition | Word::Corollary => Some(Mark::Theorem),
        _ => None,
    }
}

#[tactic(auto, unfolding(crate::specs::Marks::symbol_mark))]
fn symbol_mark(symbol: Symbol) -> Option<Mark>
    ensures mark { IfSome result (λ m. IsMark m (kinds.Symbol symbol)) }
    ensures told { result ≡ symbol_mark symbol }
{
    match symbol {
        Symbol::Comma => Some(Mark::Comma),
        Symbol::OpenParenthesis => Some(Mark::OpenParenthesis),
        Symbol::CloseParenthesis => Some(Mark::CloseParenthesis),
        Symbol::Defined => Some(Mark::Defined),
        Symbol::LeftArrow => Some(Mark::Arrow),
        _ => None,
    }
}

#[tactic(auto, unfolding(crate::specs::Marks::foreign_mark))]
fn foreign_mark(foreign: Foreign) -> Option<Mark>
    ensures mark { IfSome result (λ m. IsMark m (kinds.Foreign foreign)) }
    ensures told { result ≡ foreign_mark foreign }
{
    match foreign {
        Foreign::Recursive => Some(Mark::Recursive),
        Foreign::Underscore => Some(Mark::Underscore),
        Foreign::Instance => Some(Mark::Instance),
        Foreign::With => Some(Mark::With),
        _ => None,
    }
}

#[tactic(auto, unfolding(crate::specs::Marks::kind_mark))]
fn kind_mark(kind: &Kind) -> Option<Mark>
    ensures mark { IfSome result (λ m. IsMark m kind.now) }
    ensures told { result ≡ kind_mark kind.now }
{
    match kind {
        Kind::Name(_) => Some(Mark::Name),
        Kind::Dashes => Some(Mark::Dashes),
        Kind::Equals => Some(Mark::Equals),
        Kind::Word(word) => word_mark(*word),
        Kind::Symbol(symbol) => symbol_mark(*symbol),
        Kind::Foreign(foreign) => foreign_mark(*foreign),
        _ => None,
    }
}

/// The token that stands at an index, if it is no mark of a junction list.
#[tactic(auto, unfolding(crate::specs::Marks::mark_of))]
pub fn token_at(laid: &[Laid], at: usize) -> Option<&Token>
    requires ends { LaidEndsOnce laid.now }
    requires inside { at < length laid.now }
    ensures token { IfSome result (λ t. drop at laid.now ≡ Plain t.now ∷ drop (at + 1) laid.now) }
    ensures none { IfNone result (first_mark (drop at laid.now) ≡ None) }
    ensures not_end { IfNone result (begins_end (drop at laid.now) ≡ false) }
{
    match &laid[at] {
        Laid::Plain(token) => Some(token),
        Laid::ListOpen(_, _) => None,
        Laid::ListItem(_, _) => None,
        Laid::ListClose(_) => None,
    }
}

/// The mark of the token at an index, if it has one.
pub fn mark_at(laid: &[Laid], at: usize) -> Option<Mark>
    requires ends { LaidEndsOnce laid.now }
    requires inside { at < length laid.now }
    ensures part { IfSome result (λ m. Part (MarkText m) laid.now at (at + 1)) }
    ensures token { IfSome result (λ m. Marked m (drop at laid.now) (drop (at + 1) laid.now)) }
    ensures told { result ≡ first_mark (drop at laid.now) }
{
    match token_at(laid, at) {
        Some(token) => kind_mark(&token.kind),
        None => None,
    }
}

/// Reads a token of a mark.
fn expect(laid: &[Laid], from: usize, mark: Mark) -> Result<usize, ParseFault>
    requires ends { LaidEndsOnce laid.now }
    requires inside { from < length laid.now }
    ensures part { IfOk result (λ to. Part (MarkText mark) laid.now from to) }
    ensures token { IfOk result (λ to. Marked mark (drop from laid.now) (drop to laid.now)) }
    ensures lacks { OnErr result (Lacks mark (drop from laid.now)) }
    ensures refused { IfErr result (λ e. IsRefusedAt (drop from laid.now) e) }
{
    if mark_at(laid, from) == Some(mark) {
        return Ok(from + 1);
    }
    Err(fault_at(laid, from))
}

/// Reads dashes.
pub fn dashes(laid: &[Laid], from: usize) -> Result<usize, ParseFault>
    requires ends { LaidEndsOnce laid.now }
    requires inside { from < length laid.now }
    ensures part { IfOk result (λ to. Part (some_token kinds.Dashes) laid.now from to) }
    ensures token { IfOk result (λ to. Marked marks.Dashes (drop from laid.now) (drop to laid.now)) }
    ensures lacks { OnErr result (Lacks marks.Dashes (drop from laid.now)) }
    ensures refused { IfErr result (λ e. IsRefusedAt (drop from laid.now) e) }
{
    expect(laid, from, Mark::Dashes)
}

/// Reads the word MODULE.
pub fn heading(laid: &[Laid], from: usize) -> Result<usize, ParseFault>
    requires ends { LaidEndsOnce laid.now }
    requires inside { from < length laid.now }
    ensures part { IfOk result (λ to. Part (word words.Module) laid.now from to) }
    ensures token { IfOk result (λ to. Marked marks.Heading (drop from laid.now) (drop to laid.now)) }
    ensures lacks { OnErr result (Lacks marks.Heading (drop from laid.now)) }
    ensures refused { IfErr result (λ e. IsRefusedAt (drop from laid.now) e) }
{
    expect(laid, from, Mark::Heading)
}

/// Reads equals signs.
pub fn equals(laid: &[Laid], from: usize) -> Result<usize, ParseFault>
    requires ends { LaidEndsOnce laid.now }
    requires inside { from < length laid.now }
    ensures part { IfOk result (λ to. Part (some_token kinds.Equals) laid.now from to) }
    ensures token { IfOk result (λ to. Marked marks.Equals (drop from laid.now) (drop to laid.now)) }
    ensures lacks { OnErr result (Lacks marks.Equals (drop from laid.now)) }
    ensures refused { IfErr result (λ e. IsRefusedAt (drop from laid.now) e) }
{
    expect(laid, from, Mark::Equals)
}

/// Reads a `_`.
pub fn underscore(laid: &[Laid], from: usize) -> Result<usize, ParseFault>
    requires ends { LaidEndsOnce laid.now }
    requires inside { from < length laid.now }
    ensures part { IfOk result (λ to. Part underscore laid.now from to) }
    ensures token { IfOk result (λ to. Marked marks.Underscore (drop from laid.now) (drop to laid.now)) }
    ensures lacks { OnErr result (Lacks marks.Underscore (drop from laid.now)) }
    ensures refused { IfErr result (λ e. IsRefusedAt (drop from laid.now) e) }
{
    expect(laid, from, Mark::Underscore)
}

/// Reads a `)`.
pub fn close_parenthesis(laid: &[Laid], from: usize) -> Result<usize, ParseFault>
    requires ends { LaidEndsOnce laid.now }
    requires inside { from < length laid.now }
    ensures part { IfOk result (λ to. Part (sign symbols.CloseParenthesis) laid.now from to) }
    ensures token { IfOk result (λ to. Marked marks.CloseParenthesis (drop from laid.now) (drop to laid.now)) }
    ensures lacks { OnErr result (Lacks marks.CloseParenthesis (drop from laid.now)) }
    ensures refused { IfErr result (λ e. IsRefusedAt (drop from laid.now) e) }
{
    expect(laid, from, Mark::CloseParenthesis)
}

/// Reads a `<-`.
pub fn arrow(laid: &[Laid], from: usize) -> Result<usize, ParseFault>
    requires ends { LaidEndsOnce laid.now }
    requires inside { from < length laid.now }
    ensures part { IfOk result (λ to. Part (sign symbols.LeftArrow) laid.now from to) }
    ensures token { IfOk result (λ to. Marked marks.Arrow (drop from laid.now) (drop to laid.now)) }
    ensures lacks { OnErr result (Lacks marks.Arrow (drop from laid.now)) }
    ensures refused { IfErr result (λ e. IsRefusedAt (drop from laid.now) e) }
{
    expect(laid, from, Mark::Arrow)
}

/// Reads the End.
pub fn the_end(laid: &[Laid], from: usize) -> Result<(), ParseFault>
    requires ends { LaidEndsOnce laid.now }
    requires inside { from < length laid.now }
    ensures end { OnOk result (some_token kinds.End (drop from laid.now) []) }
    ensures lacks { OnErr result (begins_end (drop from laid.now) ≡ false) }
    ensures refused { IfErr result (λ e. IsRefusedAt (drop from laid.now) e) }
{
    match token_at(laid, from) {
        Some(token) => match &token.kind {
            Kind::End => Ok(()),
            _ => Err(fault_at(laid, from)),
        },
        None => Err(fault_at(laid, from)),
    }
}
