//! How the tokens are spelled.

ghost use Rattle.std.specs.Prelude.{◌≡◌, ◌≤◌, ◌<◌, slice_get};
ghost use Rattle.reading_tokens.specs.Spellings.{words, runs, signs, kind_in};
ghost use Rattle.reading_tokens.specs.Tables.{entry_of, table_of};

use crate::token::{Foreign, Kind, Symbol, Word};

/// A table of spellings.
#[derive(Clone, Copy)]
pub enum Table {
    /// The words.
    Words,
    /// The letters behind a backslash.
    Runs,
    /// The signs.
    Signs,
}

/// The words and their kinds, by their number in the table.
fn word_at(i: usize) -> Option<(&'static [u8], Kind)>
    ensures { slice_get words i ≡ entry_of result }
{
    if i < 30 {
        reserved_word_at(i)
    } else {
        foreign_word_at(i)
    }
}

/// The reserved words.
#[tactic(auto, unfolding(crate::specs::Spellings::words))]
fn reserved_word_at(i: usize) -> Option<(&'static [u8], Kind)>
    requires to { i < 30 }
    ensures { slice_get words i ≡ entry_of result }
{
    match i {
        0 => Some((b"ASSUME", Kind::Word(Word::Assume))),
        1 => Some((b"ASSUMPTION", Kind::Word(Word::Assumption))),
        2 => Some((b"AXIOM", Kind::Word(Word::Axiom))),
        3 => Some((b"BOOLEAN", Kind::Word(Word::Boolean))),
        4 => Some((b"CASE", Kind::Word(Word::Case))),
        5 => Some((b"CHOOSE", Kind::Word(Word::Choose))),
        6 => Some((b"CONSTANT", Kind::Word(Word::Constant))),
        7 => Some((b"CONSTANTS", Kind::Word(Word::Constants))),
        8 => Some((b"COROLLARY", Kind::Word(Word::Corollary))),
        9 => Some((b"DOMAIN", Kind::Word(Word::Domain))),
        10 => Some((b"ELSE", Kind::Word(Word::Else))),
        11 => Some((b"ENABLED", Kind::Word(Word::Enabled))),
        12 => Some((b"EXCEPT", Kind::Word(Word::Except))),
        13 => Some((b"EXTENDS", Kind::Word(Word::Extends))),
        14 => Some((b"FALSE", Kind::Word(Word::False))),
        15 => Some((b"IF", Kind::Word(Word::If))),
        16 => Some((b"IN", Kind::Word(Word::In))),
        17 => Some((b"LEMMA", Kind::Word(Word::Lemma))),
        18 => Some((b"LET", Kind::Word(Word::Let))),
        19 => Some((b"OTHER", Kind::Word(Word::Other))),
        20 => Some((b"PROPOSITION", Kind::Word(Word::Proposition))),
        21 => Some((b"STRING", Kind::Word(Word::String))),
        22 => Some((b"SUBSET", Kind::Word(Word::Subset))),
        23 => Some((b"THEN", Kind::Word(Word::Then))),
        24 => Some((b"THEOREM", Kind::Word(Word::Theorem))),
        25 => Some((b"TRUE", Kind::Word(Word::True))),
        26 => Some((b"UNCHANGED", Kind::Word(Word::Unchanged))),
        27 => Some((b"UNION", Kind::Word(Word::Union))),
        28 => Some((b"VARIABLE", Kind::Word(Word::Variable))),
        29 => Some((b"VARIABLES", Kind::Word(Word::Variables))),
        _ => None,
    }
}

/// The words that are foreign to the profile.
#[tactic(auto, unfolding(crate::specs::Spellings::words))]
fn foreign_word_at(i: usize) -> Option<(&'static [u8], Kind)>
    requires from { 30 ≤ i }
    ensures { slice_get words i ≡ entry_of result }
{
    match i {
        30 => Some((b"LAMBDA", Kind::Foreign(Foreign::Lambda))),
        31 => Some((b"LOCAL", Kind::Foreign(Foreign::Local))),
        32 => Some((b"INSTANCE", Kind::Foreign(Foreign::Instance))),
        33 => Some((b"RECURSIVE", Kind::Foreign(Foreign::Recursive))),
        34 => Some((b"WITH", Kind::Foreign(Foreign::With))),
        35 => Some((b"PROOF", Kind::Foreign(Foreign::Proof))),
        36 => Some((b"PROVE", Kind::Foreign(Foreign::Prove))),
        37 => Some((b"BY", Kind::Foreign(Foreign::By))),
        38 => Some((b"OBVIOUS", Kind::Foreign(Foreign::Obvious))),
        39 => Some((b"OMITTED", Kind::Foreign(Foreign::Omitted))),
        40 => Some((b"QED", Kind::Foreign(Foreign::Qed))),
        41 => Some((b"MODULE", Kind::Foreign(Foreign::Module))),
        42 => Some((b"_", Kind::Foreign(Foreign::Underscore))),
        _ => None,
    }
}

/// The letters behind a backslash and their kinds.
#[tactic(auto, unfolding(crate::specs::Spellings::runs))]
fn run_at(i: usize) -> Option<(&'static [u8], Kind)>
    ensures { slice_get runs i ≡ entry_of result }
{
    match i {
        0 => Some((b"in", Kind::Symbol(Symbol::Member))),
        1 => Some((b"notin", Kind::Symbol(Symbol::NotMember))),
        2 => Some((b"subseteq", Kind::Symbol(Symbol::SubsetOrEqual))),
        3 => Some((b"cup", Kind::Symbol(Symbol::Union))),
        4 => Some((b"union", Kind::Symbol(Symbol::Union))),
        5 => Some((b"cap", Kind::Symbol(Symbol::Intersection))),
        6 => Some((b"intersect", Kind::Symbol(Symbol::Intersection))),
        7 => Some((b"X", Kind::Symbol(Symbol::CartesianProduct))),
        8 => Some((b"times", Kind::Symbol(Symbol::CartesianProduct))),
        9 => Some((b"div", Kind::Symbol(Symbol::Quotient))),
        10 => Some((b"o", Kind::Symbol(Symbol::Concatenation))),
        11 => Some((b"circ", Kind::Symbol(Symbol::Concatenation))),
        12 => Some((b"E", Kind::Symbol(Symbol::Exists))),
        13 => Some((b"A", Kind::Symbol(Symbol::ForAll))),
        14 => Some((b"land", Kind::Symbol(Symbol::And))),
        15 => Some((b"lor", Kind::Symbol(Symbol::Or))),
        16 => Some((b"lnot", Kind::Symbol(Symbol::Not))),
        17 => Some((b"neg", Kind::Symbol(Symbol::Not))),
        18 => Some((b"leq", Kind::Symbol(Symbol::LessOrEqual))),
        19 => Some((b"geq", Kind::Symbol(Symbol::GreaterOrEqual))),
        20 => Some((b"equiv", Kind::Symbol(Symbol::Equivalent))),
        21 => Some((b"cdot", Kind::Foreign(Foreign::ActionComposition))),
        22 => Some((b"AA", Kind::Foreign(Foreign::TemporalForAll))),
        23 => Some((b"EE", Kind::Foreign(Foreign::TemporalExists))),
        _ => None,
    }
}

/// The signs and their kinds.
fn sign_at(i: usize) -> Option<(&'static [u8], Kind)>
    ensures { slice_get signs i ≡ entry_of result }
{
    if i < 20 {
        return mark_at(i);
    }
    if i < 43 {
        operator_at(i)
    } else {
        foreign_sign_at(i)
    }
}

/// The brackets and marks.
#[tactic(auto, unfolding(crate::specs::Spellings::signs))]
fn mark_at(i: usize) -> Option<(&'static [u8], Kind)>
    requires to { i < 20 }
    ensures { slice_get signs i ≡ entry_of result }
{
    match i {
        0 => Some((b"(", Kind::Symbol(Symbol::OpenParenthesis))),
        1 => Some((b")", Kind::Symbol(Symbol::CloseParenthesis))),
        2 => Some((b"[", Kind::Symbol(Symbol::OpenBracket))),
        3 => Some((b"]", Kind::Symbol(Symbol::CloseBracket))),
        4 => Some((b"]_", Kind::Symbol(Symbol::CloseBracketSubscript))),
        5 => Some((b"{", Kind::Symbol(Symbol::OpenBrace))),
        6 => Some((b"}", Kind::Symbol(Symbol::CloseBrace))),
        7 => Some((b"<<", Kind::Symbol(Symbol::OpenTuple))),
        8 => Some((b">>", Kind::Symbol(Symbol::CloseTuple))),
        9 => Some((b">>_", Kind::Symbol(Symbol::CloseTupleSubscript))),
        10 => Some((b",", Kind::Symbol(Symbol::Comma))),
        11 => Some((b":", Kind::Symbol(Symbol::Colon))),
        12 => Some((b"!", Kind::Symbol(Symbol::Exclamation))),
        13 => Some((b"@", Kind::Symbol(Symbol::At))),
        14 => Some((b".", Kind::Symbol(Symbol::Dot))),
        15 => Some((b"'", Kind::Symbol(Symbol::Prime))),
        16 => Some((b"==", Kind::Symbol(Symbol::Defined))),
        17 => Some((b"->", Kind::Symbol(Symbol::Arrow))),
        18 => Some((b"|->", Kind::Symbol(Symbol::MapsTo))),
        19 => Some((b"<-", Kind::Symbol(Symbol::LeftArrow))),
        _ => None,
    }
}

/// The operators.
#[tactic(auto, unfolding(crate::specs::Spellings::signs))]
fn operator_at(i: usize) -> Option<(&'static [u8], Kind)>
    requires from { 20 ≤ i }
    requires to { i < 43 }
    ensures { slice_get signs i ≡ entry_of result }
{
    match i {
        20 => Some((b"=", Kind::Symbol(Symbol::Equal))),
        21 => Some((b"#", Kind::Symbol(Symbol::NotEqual))),
        22 => Some((b"/=", Kind::Symbol(Symbol::NotEqual))),
        23 => Some((b"<", Kind::Symbol(Symbol::Less))),
        24 => Some((b">", Kind::Symbol(Symbol::Greater))),
        25 => Some((b"<=", Kind::Symbol(Symbol::LessOrEqual))),
        26 => Some((b"=<", Kind::Symbol(Symbol::LessOrEqual))),
        27 => Some((b">=", Kind::Symbol(Symbol::GreaterOrEqual))),
        28 => Some((b"=>", Kind::Symbol(Symbol::Implies))),
        29 => Some((b"<=>", Kind::Symbol(Symbol::Equivalent))),
        30 => Some((b"~>", Kind::Symbol(Symbol::LeadsTo))),
        31 => Some((b"~", Kind::Symbol(Symbol::Not))),
        32 => Some((b"/\\", Kind::Symbol(Symbol::And))),
        33 => Some((b"[]", Kind::Symbol(Symbol::Always))),
        34 => Some((b"<>", Kind::Symbol(Symbol::Eventually))),
        35 => Some((b"+", Kind::Symbol(Symbol::Plus))),
        36 => Some((b"-", Kind::Symbol(Symbol::Minus))),
        37 => Some((b"*", Kind::Symbol(Symbol::Times))),
        38 => Some((b"%", Kind::Symbol(Symbol::Remainder))),
        39 => Some((b"^", Kind::Symbol(Symbol::Power))),
        40 => Some((b"..", Kind::Symbol(Symbol::Interval))),
        41 => Some((b":>", Kind::Symbol(Symbol::SingleFunction))),
        42 => Some((b"@@", Kind::Symbol(Symbol::MergedFunctions))),
        _ => None,
    }
}

/// The signs that are foreign to the profile.
#[tactic(auto, unfolding(crate::specs::Spellings::signs))]
fn foreign_sign_at(i: usize) -> Option<(&'static [u8], Kind)>
    requires from { 43 ≤ i }
    ensures { slice_get signs i ≡ entry_of result }
{
    match i {
        43 => Some((b"--", Kind::Foreign(Foreign::MinusMinus))),
        44 => Some((b"++", Kind::Foreign(Foreign::PlusPlus))),
        45 => Some((b"**", Kind::Foreign(Foreign::StarStar))),
        46 => Some((b"//", Kind::Foreign(Foreign::SlashSlash))),
        47 => Some((b"/", Kind::Foreign(Foreign::Slash))),
        48 => Some((b"^^", Kind::Foreign(Foreign::CaretCaret))),
        49 => Some((b"??", Kind::Foreign(Foreign::QuestionQuestion))),
        50 => Some((b"!!", Kind::Foreign(Foreign::ExclamationExclamation))),
        51 => Some((b"##", Kind::Foreign(Foreign::HashHash))),
        52 => Some((b"$", Kind::Foreign(Foreign::Dollar))),
        53 => Some((b"$$", Kind::Foreign(Foreign::DollarDollar))),
        54 => Some((b"&", Kind::Foreign(Foreign::Ampersand))),
        55 => Some((b"&&", Kind::Foreign(Foreign::AmpersandAmpersand))),
        56 => Some((b"|", Kind::Foreign(Foreign::Bar))),
        57 => Some((b"||", Kind::Foreign(Foreign::BarBar))),
        58 => Some((b"<:", Kind::Foreign(Foreign::LessColon))),
        59 => Some((b":=", Kind::Foreign(Foreign::ColonEqual))),
        60 => Some((b"::=", Kind::Foreign(Foreign::ColonColonEqual))),
        61 => Some((b"...", Kind::Foreign(Foreign::DotDotDot))),
        62 => Some((b"^+", Kind::Foreign(Foreign::CaretPlus))),
        63 => Some((b"^*", Kind::Foreign(Foreign::CaretStar))),
        64 => Some((b"^#", Kind::Foreign(Foreign::CaretHash))),
        65 => Some((b"-+->", Kind::Foreign(Foreign::PlusArrow))),
        66 => Some((b"|-", Kind::Foreign(Foreign::BarMinus))),
        67 => Some((b"|=", Kind::Foreign(Foreign::BarEqual))),
        68 => Some((b"-|", Kind::Foreign(Foreign::MinusBar))),
        69 => Some((b"=|", Kind::Foreign(Foreign::EqualBar))),
        _ => None,
    }
}

/// An entry of a table, by its number.
fn entry(table: Table, i: usize) -> Option<(&'static [u8], Kind)>
    ensures { slice_get (table_of table) i ≡ entry_of result }
{
    match table {
        Table::Words => word_at(i),
        Table::Runs => run_at(i),
        Table::Signs => sign_at(i),
    }
}

/// The kind of the token that is spelled so, if the table has it.
pub fn kind_of(table: Table, bytes: &[u8]) -> Option<Kind>
    ensures { result ≡ kind_in (table_of table) bytes.now }
{
    let mut i = 0;
    while let Some((spelling, kind)) = entry(table, i) {
        if spelling == bytes {
            return Some(kind);
        }
        i += 1;
    }
    None
}
