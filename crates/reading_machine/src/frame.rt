//! What is read of an expression, up to a token.

use base_core::{Names, Place, Text};
use reading_trees::{
    Arms, Bounds, Bullet, Changes, Definitions, Expr, Exprs, Fields, InfixOperator, Operands,
    PrefixOperator, Quantifier, Steps,
};

/// An action with a subscript: `[A]_v` or `<<A>>_v`.
#[derive(Clone, Copy, Debug, Drop, PartialEq, Eq)]
pub enum Action {
    Box,
    Angle,
}

/// `[a |-> e]`, or the set of records `[a : S]`.
#[derive(Clone, Copy, Debug, Drop, PartialEq, Eq)]
pub enum RecordKind {
    Record,
    Set,
}

/// Where a definition stands: in a LET of that place behind these definitions, or as a unit of a module.
#[derive(Drop)]
pub enum Scope {
    Let(Place, Definitions),
    Unit,
}

/// What binds names.
#[derive(Drop)]
pub enum Binder {
    Quantifier(Quantifier, Place),
    /// `[x \in S |-> e]`
    Function(Place),
    /// `{e : x \in S}`, with e
    Map(Place, Expr),
    /// `N[x \in S] == e`, with the name, its place and that of the bracket
    Defined(Scope, Text, Place, Place),
}

/// A binder with the bounds that it has so far.
#[derive(Drop)]
pub struct Binding {
    pub binder: Binder,
    pub bounds: Bounds,
}

/// What stands between the name of a definition and its `==`.
#[derive(Drop)]
pub enum Form {
    Operator(Names),
    /// The place of the bracket, and the bounds.
    Function(Place, Bounds),
}

/// A row of the grammar in which an expression is being read, with what stands before that expression.
#[derive(Drop)]
pub enum Frame {
    /// `(E`
    Parenthesis(Place),
    /// `N(E, E`
    Call(Text, Place, Exprs),
    /// `I!N(E, E`, with the qualified name
    QualifiedCall(Text, Place, Exprs),
    /// Items of a junction list, each behind its bullet.
    Junction(Bullet, Place, Exprs),
    Prefix(PrefixOperator, Place),
    /// A chain behind its last operator so far.
    Infix(InfixOperator, Operands, Place),
    /// `E[E, E`
    Index(Expr, Place, Exprs),
    /// `{E, E`
    Braces(Place, Exprs),
    /// `{x \in E`, which is the beginning of `{x \in S : p}` or of an element; with the places of the name and of `\in`
    MaybeFilter(Place, Text, Place, Place),
    /// `{x \in S : E`
    FilterTest(Place, Text, Expr),
    /// `<<E, E`
    Tuple(Place, Exprs),
    /// `[E`
    Bracket(Place),
    /// `[x \in E`, which is the beginning of a function or of an expression; with the places of the name and of `\in`
    MaybeFunction(Place, Text, Place, Place),
    /// `[x \in S |-> E`
    FunctionBody(Place, Bounds),
    /// `[S -> E`
    FunctionRange(Place, Expr),
    /// `[h |-> E, k |-> E` or `[h : E, k : E`, with the name of the last field
    Record(RecordKind, Place, Fields, Text),
    /// `x, y \in E`
    BoundSet(Binding, Names),
    /// `[E EXCEPT !.h[E, E`, with the place of the last bracket
    ExceptIndex(Place, Expr, Changes, Steps, Place, Exprs),
    /// `[E EXCEPT !.h = E`
    ExceptValue(Place, Expr, Changes, Steps),
    QuantifierBody(Quantifier, Place, Bounds),
    ChooseSet(Place, Text),
    ChooseBody(Place, Text, Expr),
    IfTest(Place),
    IfThen(Place, Expr),
    IfElse(Place, Expr, Expr),
    CaseTest(Place, Arms),
    CaseValue(Place, Arms, Expr),
    CaseOther(Place, Arms),
    DefinitionBody(Scope, Text, Place, Form),
    LetBody(Place, Definitions),
    /// `[A]_` or `<<A>>_`
    Subscript(Action, Place, Expr),
    /// `WF_` or `SF_`
    FairSubscript(Place),
    /// `WF_v(E`
    FairBody(Place, Expr),
}

/// What is expected at a token, with what stands before it in the innermost row.
#[derive(Drop)]
pub enum Mode {
    /// An expression.
    Want,
    /// What can follow this primary, which is the last so far.
    Have(Expr),
    /// A name of a bound, behind those before it.
    BoundName(Binding, Names),
    /// `,` or `\in` behind the names of a bound.
    BoundNamed(Binding, Names),
    /// What follows a `[` that begins an expression.
    BracketStart(Place),
    /// What follows such a `[` and a name, with the place of the name.
    BracketName(Place, Text, Place),
    /// What follows a `{`.
    BraceStart(Place),
    /// What follows a `{` and a name, with the place of the name.
    BraceName(Place, Text, Place),
    /// What follows a `<<`.
    TupleStart(Place),
    /// The first item of a list.
    ListStart(Bullet, Place),
    ChooseName(Place),
    /// `\in` behind CHOOSE and a name.
    ChooseNamed(Place, Text),
    /// The first definition of a LET, or of a unit.
    DefinitionName(Scope),
    /// `==`, `(` or `[` behind the name of a definition.
    DefinitionNamed(Scope, Text, Place),
    /// A parameter behind those before it.
    Parameter(Scope, Text, Place, Names),
    /// `,` or `)` behind the parameters.
    ParameterNamed(Scope, Text, Place, Names),
    /// `==`
    DefinedAs(Scope, Text, Place, Form),
    /// The `!` of a change.
    ExceptMark(Place, Expr, Changes),
    /// A step of a path, or `=`.
    ExceptPath(Place, Expr, Changes, Steps),
    /// The field behind the `.` of a path, with the place of that.
    ExceptField(Place, Expr, Changes, Steps, Place),
    /// The field behind a `.`, with the place of that.
    FieldName(Expr, Place),
    /// The name behind `I!`, with the place of I.
    InstanceName(Place, Text),
    /// A field of a record behind those before it.
    RecordName(RecordKind, Place, Fields),
    /// `|->` or `:` behind the name of a field.
    RecordNamed(RecordKind, Place, Fields, Text),
    /// The subscript of an action.
    SubscriptStart(Action, Place, Expr),
    /// The subscript of fairness.
    FairStart(Place),
    /// `(` behind the subscript of fairness.
    FairOpen(Place, Expr),
    /// OTHER or a test, behind the arms before it.
    CaseNext(Place, Arms),
    /// `->` behind OTHER.
    OtherArrow(Place, Arms),
}
