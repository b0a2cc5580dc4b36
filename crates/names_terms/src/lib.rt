//! Terms: expressions with every name resolved, and the specification that they make.
#![tactic(auto)]

mod ids;
mod level;
mod operator;
mod spec;
mod standard;
mod term;

pub use ids::{DefId, DefIds};
pub use level::Level;
pub use operator::{Operator, Own};
pub use spec::{Operators, Spec};
pub use standard::{NamedSet, StandardOperator};
pub use term::{
    Arm, Arms, Bound, Bounds, Change, Changes, Field, Fields, Operand, Operands, Step, StepAt,
    Steps, Term, TermNode, Terms,
};
