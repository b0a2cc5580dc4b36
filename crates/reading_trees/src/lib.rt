//! The syntax of TLA+ as this project's profile reads it, and what it means to be read so.
#![tactic(auto)]

mod config;
mod construct;
mod expr;
mod form;
mod laid;
mod laid_laws;
mod lexed_ends;
mod module;
mod operators;
mod qualified_names;

pub use config::{Config, Given, GivenAt, Givens, Literal, Literals};
pub use construct::{Construct, Open};
pub use expr::{
    Arm, Arms, Bound, Bounds, Change, Changes, Definition, Definitions, Expr, Exprs, Field, Fields,
    Node, Operand, Operands, Step, StepAt, Steps,
};
pub use form::DefinitionForm;
pub use laid::{Bullet, Laid};
pub use laid_laws::laws_of_laid;
pub use lexed_ends::tokens_end_once;
pub use module::{
    Declared, DeclaredNames, DeclaredOperator, DeclaredOperators, Instance, Instances, Made,
    Module, Program, Unit, Units, WholeProgram, With, Withs,
};
pub use operators::{BuiltinSet, InfixOperator, PrefixOperator, Quantifier};
pub use qualified_names::qualified;
