//! The tokens of a text.

use base_core::{Place, Text};

/// A reserved word.
#[derive(Clone, Copy, Debug, Drop, PartialEq, Eq)]
pub enum Word {
    Assume,
    Assumption,
    Axiom,
    Boolean,
    Case,
    Choose,
    Constant,
    Constants,
    Corollary,
    Domain,
    Else,
    Enabled,
    Except,
    Extends,
    False,
    If,
    In,
    Lemma,
    Let,
    /// The word of a module's heading; elsewhere the token is `Foreign::Module`.
    Module,
    Other,
    Proposition,
    String,
    Subset,
    Then,
    Theorem,
    True,
    Unchanged,
    Union,
    Variable,
    Variables,
}

/// A symbol. Spellings of one operator are one symbol, as `\union` and `\cup`.
#[derive(Clone, Copy, Debug, Drop, PartialEq, Eq)]
pub enum Symbol {
    /// `(`
    OpenParenthesis,
    /// `)`
    CloseParenthesis,
    /// `[`
    OpenBracket,
    /// `]`
    CloseBracket,
    /// `]_`
    CloseBracketSubscript,
    /// `{`
    OpenBrace,
    /// `}`
    CloseBrace,
    /// `<<`
    OpenTuple,
    /// `>>`
    CloseTuple,
    /// `>>_`
    CloseTupleSubscript,
    /// `,`
    Comma,
    /// `:`
    Colon,
    /// `!`
    Exclamation,
    /// `@`
    At,
    /// `.`
    Dot,
    /// `'`
    Prime,
    /// `==`
    Defined,
    /// `->`
    Arrow,
    /// `|->`
    MapsTo,
    /// `<-`
    LeftArrow,
    /// `=`
    Equal,
    /// `#` and `/=`
    NotEqual,
    /// `<`
    Less,
    /// `>`
    Greater,
    /// `<=`, `=<` and `\leq`
    LessOrEqual,
    /// `>=` and `\geq`
    GreaterOrEqual,
    /// `=>`
    Implies,
    /// `<=>` and `\equiv`
    Equivalent,
    /// `~>`
    LeadsTo,
    /// `~`, `\lnot` and `\neg`
    Not,
    /// `/\` and `\land`
    And,
    /// `\/` and `\lor`
    Or,
    /// `[]`, which also begins a further case
    Always,
    /// `<>`
    Eventually,
    /// `+`
    Plus,
    /// `-`
    Minus,
    /// `*`
    Times,
    /// `\div`
    Quotient,
    /// `%`
    Remainder,
    /// `^`
    Power,
    /// `..`
    Interval,
    /// `:>`, the function with one argument
    SingleFunction,
    /// `@@`, two functions as one
    MergedFunctions,
    /// `\`
    Difference,
    /// `\in`
    Member,
    /// `\notin`
    NotMember,
    /// `\subseteq`
    SubsetOrEqual,
    /// `\cup` and `\union`
    Union,
    /// `\cap` and `\intersect`
    Intersection,
    /// `\X` and `\times`
    CartesianProduct,
    /// `\o` and `\circ`
    Concatenation,
    /// `\E`
    Exists,
    /// `\A`
    ForAll,
}

/// A token of TLA+ that is outside this project's profile.
#[derive(Clone, Copy, Debug, Drop, PartialEq, Eq)]
pub enum Foreign {
    Lambda,
    Local,
    Instance,
    Recursive,
    With,
    Proof,
    Prove,
    By,
    Obvious,
    Omitted,
    Qed,
    /// `MODULE` anywhere but in a module's heading
    Module,
    /// `--`
    MinusMinus,
    /// `++`
    PlusPlus,
    /// `**`
    StarStar,
    /// `//`
    SlashSlash,
    /// `/`
    Slash,
    /// `^^`
    CaretCaret,
    /// `??`
    QuestionQuestion,
    /// `!!`
    ExclamationExclamation,
    /// `##`
    HashHash,
    /// `$`
    Dollar,
    /// `$$`
    DollarDollar,
    /// `&`
    Ampersand,
    /// `&&`
    AmpersandAmpersand,
    /// `|`
    Bar,
    /// `||`
    BarBar,
    /// `<:`
    LessColon,
    /// `:=`
    ColonEqual,
    /// `::=`
    ColonColonEqual,
    /// `...`
    DotDotDot,
    /// `^+`
    CaretPlus,
    /// `^*`
    CaretStar,
    /// `^#`
    CaretHash,
    /// `-+->`
    PlusArrow,
    /// `|-`
    BarMinus,
    /// `|=`
    BarEqual,
    /// `-|`
    MinusBar,
    /// `=|`
    EqualBar,
    /// `\cdot`
    ActionComposition,
    /// `\AA`
    TemporalForAll,
    /// `\EE`
    TemporalExists,
    /// `_` alone, a parameter's place
    Underscore,
}

/// What a token is.
#[derive(Drop)]
pub enum Kind {
    Name(Text),
    /// From 0 to 9223372036854775807.
    Number(i64),
    /// The characters that a string stands for, with each escape replaced by its character.
    Str(Text),
    /// Four or more `-`.
    Dashes,
    /// Four or more `=`.
    Equals,
    /// `WF_` or `SF_`.
    Fair,
    Word(Word),
    Symbol(Symbol),
    Foreign(Foreign),
    /// The end of the module or of the text.
    End,
}

/// A token and the place of its first character.
#[derive(Drop)]
pub struct Token {
    pub kind: Kind,
    pub place: Place,
}
