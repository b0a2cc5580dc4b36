//! Bounds of a binder.

ghost use Rattle.reading_open_rows.specs.Does.{Does, frames_in};
ghost use Rattle.reading_machine.specs.Machine.{binder_close, bound_close};
ghost use Rattle.std.specs.Prelude.{◌≡◌, IfOk};

use base_core::{Names, NoMemory};
use reading_machine::{Binder, Binding, Form, Frame, Mode};
use reading_open_rows::{Stack, Stepped, want};
use reading_tokens::Symbol;
use reading_trees::{Bound, Bounds, Expr, Node};
use std::alloc::Global;

/// A token behind all bounds of a binder.
fn binder_close(
    alloc: Global,
    symbol: Symbol,
    binder: Binder,
    bounds: Bounds,
    stack: &mut Stack,
) -> Result<Stepped, NoMemory>
    ensures { IfOk result (λ r. Does r (frames_in stack.new) (binder_close symbol binder bounds (frames_in stack.old))) }
{
    match binder {
        Binder::Quantifier(q, at) => match symbol {
            Symbol::Colon => want(stack, Frame::QuantifierBody(q, at, bounds)),
            _ => Ok(Stepped::Stops),
        },
        Binder::Function(at) => match symbol {
            Symbol::MapsTo => want(stack, Frame::FunctionBody(at, bounds)),
            _ => Ok(Stepped::Stops),
        },
        Binder::Map(at, e) => match symbol {
            Symbol::CloseBrace => {
                let node = Node::Map(e, bounds);
                Ok(Stepped::Reads(Mode::Have(Expr::new(alloc, at, node)?)))
            }
            _ => Ok(Stepped::Stops),
        },
        Binder::Defined(scope, name, at, q) => match symbol {
            Symbol::CloseBracket => Ok(Stepped::Reads(Mode::DefinedAs(
                scope,
                name,
                at,
                Form::Function(q, bounds),
            ))),
            _ => Ok(Stepped::Stops),
        },
    }
}

/// A token behind the set of a bound.
pub fn bound_close(
    alloc: Global,
    symbol: Symbol,
    binding: Binding,
    names: Names,
    stack: &mut Stack,
    set: Expr,
) -> Result<Stepped, NoMemory>
    ensures { IfOk result (λ r. Does r (frames_in stack.new) (bound_close symbol binding names (frames_in stack.old) set)) }
{
    let Binding { binder, mut bounds } = binding;
    bounds.push(Bound { names, set })?;
    match symbol {
        Symbol::Comma => {
            let binding = Binding { binder, bounds };
            Ok(Stepped::Reads(Mode::BoundName(binding, Names::new(alloc))))
        }
        other => binder_close(alloc, other, binder, bounds, stack),
    }
}
