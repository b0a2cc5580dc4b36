//! The operators of expressions.

/// An operator that stands before its operand.
#[derive(Clone, Copy, Debug, Drop, PartialEq, Eq)]
pub enum PrefixOperator {
    /// `~`
    Not,
    Unchanged,
    Enabled,
    /// `[]`
    Always,
    /// `<>`
    Eventually,
    /// `SUBSET`
    Powerset,
    /// `UNION`
    BigUnion,
    Domain,
    /// `-` before its operand
    Negate,
}

/// An operator between its operands. Each is the symbol of the same name.
#[derive(Clone, Copy, Debug, Drop, PartialEq, Eq)]
pub enum InfixOperator {
    Implies,
    Equivalent,
    LeadsTo,
    And,
    Or,
    Equal,
    NotEqual,
    Less,
    Greater,
    LessOrEqual,
    GreaterOrEqual,
    Member,
    NotMember,
    SubsetOrEqual,
    MergedFunctions,
    SingleFunction,
    Union,
    Intersection,
    Difference,
    Interval,
    Plus,
    Remainder,
    Minus,
    CartesianProduct,
    Times,
    Concatenation,
    Quotient,
    Power,
}

/// `\A` or `\E`.
#[derive(Clone, Copy, Debug, Drop, PartialEq, Eq)]
pub enum Quantifier {
    ForAll,
    Exists,
}

/// A set that has a word of its own.
#[derive(Clone, Copy, Debug, Drop, PartialEq, Eq)]
pub enum BuiltinSet {
    /// `BOOLEAN`
    Booleans,
    /// `STRING`
    Strings,
}
