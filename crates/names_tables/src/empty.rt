//! What stands for the body of a definition that is not known yet.

ghost use Rattle.std.specs.Prelude.{◌≡◌, IfOk};
ghost use Rattle.names_meanings.specs.Means.{no_body};

use base_core::{NoMemory, Place};
use names_terms::{Level, Term, TermNode};
use std::alloc::Global;
use values_core::Value;

const NOWHERE: Place = Place {
    file: 0,
    line: 0,
    col: 0,
};

/// What stands for a body that comes later.
pub(crate) fn no_body(alloc: Global) -> Result<Term, NoMemory>
    ensures { IfOk result (λ e. e ≡ no_body) }
{
    let node = TermNode::Known(Value::boolean(false));
    Term::new(alloc, NOWHERE, Level::Constant, node)
}
