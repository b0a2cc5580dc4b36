//! How many unfinished constructs there are: an open bracket, list, CASE, an IF before its ELSE, a LET before its IN, a binder before
//! its `:`, and an operator whose last operand has not ended. A `\in` that may belong to a binder is never counted.

ghost use Rattle.reading_open_rows.specs.Unfinished.{of_binder, of_frame, of_mode, of_scope};
ghost use Rattle.std.specs.Prelude.{◌≡◌};

use reading_machine::{Binder, Frame, Mode, Scope};

fn of_scope(scope: &Scope) -> u64
    ensures { result ≡ of_scope scope.now }
{
    match scope {
        Scope::Let(_, _) => 1,
        Scope::Unit => 0,
    }
}

fn of_binder(binder: &Binder) -> u64
    ensures { result ≡ of_binder binder.now }
{
    match binder {
        Binder::Quantifier(_, _) | Binder::Function(_) | Binder::Map(_, _) => 1,
        Binder::Defined(Scope::Let(_, _), _, _, _) => 2,
        Binder::Defined(Scope::Unit, _, _, _) => 1,
    }
}

/// How many of them a frame is.
pub fn unfinished_in(frame: &Frame) -> u64
    ensures { result ≡ of_frame frame.now }
{
    match frame {
        Frame::QuantifierBody(_, _, _)
        | Frame::ChooseBody(_, _, _)
        | Frame::IfElse(_, _, _)
        | Frame::LetBody(_, _)
        | Frame::Subscript(_, _, _)
        | Frame::FairSubscript(_) => 0,
        Frame::ExceptIndex(_, _, _, _, _, _) => 2,
        Frame::BoundSet(binding, _) => of_binder(&binding.binder),
        Frame::DefinitionBody(scope, _, _, _) => of_scope(scope),
        _ => 1,
    }
}

/// How many are unfinished in the row of what is expected.
pub fn unfinished_at(mode: &Mode) -> u64
    ensures { result ≡ of_mode mode.now }
{
    match mode {
        Mode::Want
        | Mode::Have(_)
        | Mode::FieldName(_, _)
        | Mode::InstanceName(_, _)
        | Mode::SubscriptStart(_, _, _)
        | Mode::FairStart(_)
        | Mode::FairOpen(_, _) => 0,
        Mode::BoundName(binding, _) | Mode::BoundNamed(binding, _) => of_binder(&binding.binder),
        Mode::DefinitionName(scope)
        | Mode::DefinitionNamed(scope, _, _)
        | Mode::DefinedAs(scope, _, _, _) => of_scope(scope),
        Mode::Parameter(Scope::Unit, _, _, _) | Mode::ParameterNamed(Scope::Unit, _, _, _) => 1,
        Mode::Parameter(Scope::Let(_, _), _, _, _)
        | Mode::ParameterNamed(Scope::Let(_, _), _, _, _) => 2,
        _ => 1,
    }
}
