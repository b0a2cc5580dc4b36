//! The forms of a definition.

/// What a definition makes of its name: an operator, as `N == e` and `N(a, b) == e` do, or a function, as `N[x \in S] == e` does.
#[derive(Clone, Copy, Debug, Drop, PartialEq, Eq)]
pub enum DefinitionForm {
    Operator,
    Function,
    /// What stands in an instance for a constant of its module, as `I!c == e`: as an operator, but its level is to be 0. No text spells it.
    Constant,
}
