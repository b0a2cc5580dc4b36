/// What a term is taken apart as: the predicate of the first states, or an action.
#[derive(Clone, Copy, Debug, Drop, PartialEq, Eq)]
pub enum Which {
    /// `x = e` and `x \in S` say which value a variable has.
    Init,
    /// `x' = e` and `x' \in S` say which value a variable has next.
    Action,
}
