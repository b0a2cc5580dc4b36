//! The operators whose operands are all evaluated first, on the values of their operands.

ghost use Rattle.std.specs.Prelude.{◌≡◌, ◌<◌, [], ◌∷◌, Some, length, slice_get, true};
ghost use Rattle.values_core.specs.FunctionOperations.{GivesHead};
ghost use Rattle.values_core.specs.Integers.{int_operands};
ghost use Rattle.names_terms.specs.declared.standard.StandardOperator.TheVariants.{Append, SubSeq};
ghost use Rattle.eval_meanings.specs.Answers.{Tells, arity, is_operation, is_operation_on_one, is_standard_operation, placed_answer};
ghost use Rattle.eval_meanings.specs.Operations.{InfixAnswers, IsFinite, IsWhether, PrefixAnswers, StandardAnswers, is_at_least, is_greater, tested};
ghost use Rattle.eval_meanings.specs.Outcomes.{Operated, place_in};

use crate::fault::EvalFault;
use base_core::Place;
use names_terms::StandardOperator;
use reading_trees::{InfixOperator, PrefixOperator};
use std::alloc::Global;
use values_core::{EvalKind, OpFault, Value, ValueKind};

/// An infix operation on two values. A fault stands at the operand that it names, by these places, or else at the term.
pub fn infix(
    alloc: Global,
    operator: InfixOperator,
    left: &Value,
    right: &Value,
    at: Place,
    operands: &[Place],
) -> Result<Value, EvalFault>
    requires operation { is_operation operator ≡ true }
    ensures { Tells result (Operated (InfixAnswers operator left.now right.now) (place_in at operands.now)) }
{
    located(infix_answer(alloc, operator, left, right), at, operands)
}

/// A prefix operation on a value, with places as `infix` has them.
pub fn prefix(
    alloc: Global,
    operator: PrefixOperator,
    value: &Value,
    at: Place,
    operands: &[Place],
) -> Result<Value, EvalFault>
    requires operation { is_operation_on_one operator ≡ true }
    ensures { Tells result (Operated (PrefixAnswers operator value.now) (place_in at operands.now)) }
{
    located(prefix_answer(alloc, operator, value), at, operands)
}

/// An operator of a standard module, which makes no described set, on its arguments; with places as `infix` has them.
pub fn standard(
    alloc: Global,
    operator: StandardOperator,
    arguments: &[Value],
    at: Place,
    operands: &[Place],
) -> Result<Value, EvalFault>
    requires operation { is_standard_operation operator ≡ true }
    requires arguments { length arguments.now ≡ arity operator }
    ensures { Tells result (Operated (StandardAnswers operator arguments.now) (place_in at operands.now)) }
{
    located(standard_answer(alloc, operator, arguments), at, operands)
}

fn infix_answer(
    alloc: Global,
    operator: InfixOperator,
    left: &Value,
    right: &Value,
) -> Result<Value, OpFault>
    requires operation { is_operation operator ≡ true }
    ensures { InfixAnswers operator left.now right.now result }
{
    match operator {
        InfixOperator::Equal => equal(left, right),
        InfixOperator::NotEqual => unequal(left, right),
        InfixOperator::Less => truth_of(values_operations::less(left, right)),
        InfixOperator::Greater => truth_of(greater(left, right)),
        InfixOperator::LessOrEqual => truth_of(values_operations::at_most(left, right)),
        InfixOperator::GreaterOrEqual => truth_of(at_least(left, right)),
        InfixOperator::MergedFunctions => values_operations::merge(alloc, left, right),
        InfixOperator::SingleFunction => values_operations::single(alloc, left, right),
        InfixOperator::Union => values_operations::union(alloc, left, right),
        InfixOperator::Intersection => values_operations::intersect(alloc, left, right),
        InfixOperator::Difference => values_operations::minus(alloc, left, right),
        InfixOperator::Plus => values_operations::add(left, right),
        InfixOperator::Minus => values_operations::sub(left, right),
        InfixOperator::Times => values_operations::mul(left, right),
        InfixOperator::Quotient => values_operations::div(left, right),
        InfixOperator::Remainder => values_operations::modulo(left, right),
        InfixOperator::Power => values_operations::power(left, right),
        InfixOperator::Concatenation => values_operations::concat(alloc, left, right),
        InfixOperator::Implies => unreachable!(),
        InfixOperator::Equivalent => unreachable!(),
        InfixOperator::LeadsTo => unreachable!(),
        InfixOperator::And => unreachable!(),
        InfixOperator::Or => unreachable!(),
        InfixOperator::Member => unreachable!(),
        InfixOperator::NotMember => unreachable!(),
        InfixOperator::SubsetOrEqual => unreachable!(),
        InfixOperator::Interval => unreachable!(),
        InfixOperator::CartesianProduct => unreachable!(),
    }
}

fn prefix_answer(alloc: Global, operator: PrefixOperator, value: &Value) -> Result<Value, OpFault>
    requires operation { is_operation_on_one operator ≡ true }
    ensures { PrefixAnswers operator value.now result }
{
    match operator {
        PrefixOperator::Negate => values_operations::negate(value),
        PrefixOperator::BigUnion => values_operations::big_union(alloc, value),
        PrefixOperator::Domain => values_operations::domain(alloc, value),
        PrefixOperator::Not => unreachable!(),
        PrefixOperator::Unchanged => unreachable!(),
        PrefixOperator::Enabled => unreachable!(),
        PrefixOperator::Always => unreachable!(),
        PrefixOperator::Eventually => unreachable!(),
        PrefixOperator::Powerset => unreachable!(),
    }
}

fn standard_answer(
    alloc: Global,
    operator: StandardOperator,
    arguments: &[Value],
) -> Result<Value, OpFault>
    requires operation { is_standard_operation operator ≡ true }
    requires arguments { length arguments.now ≡ arity operator }
    ensures { StandardAnswers operator arguments.now result }
{
    match operator {
        StandardOperator::Append => append_answer(alloc, arguments),
        StandardOperator::SubSeq => part_answer(alloc, arguments),
        StandardOperator::Seq => unreachable!(),
        StandardOperator::Len => answer_on_first(alloc, operator, arguments),
        StandardOperator::Head => answer_on_first(alloc, operator, arguments),
        StandardOperator::Tail => answer_on_first(alloc, operator, arguments),
        StandardOperator::IsFiniteSet => answer_on_first(alloc, operator, arguments),
        StandardOperator::Cardinality => answer_on_first(alloc, operator, arguments),
    }
}

/// An operator on its one argument.
fn answer_on_first(
    alloc: Global,
    operator: StandardOperator,
    arguments: &[Value],
) -> Result<Value, OpFault>
    requires operation { is_standard_operation operator ≡ true }
    requires one { arity operator ≡ 1 }
    requires arguments { length arguments.now ≡ 1 }
    ensures { StandardAnswers operator arguments.now result }
{
    let value = argument(arguments, 0);
    answer_on_one(alloc, operator, value)
}

fn answer_on_one(alloc: Global, operator: StandardOperator, value: &Value) -> Result<Value, OpFault>
    requires operation { is_standard_operation operator ≡ true }
    requires one { arity operator ≡ 1 }
    ensures { StandardAnswers operator (value.now ∷ []) result }
{
    match operator {
        StandardOperator::Len => values_operations::len_of(value),
        StandardOperator::Head => head_answer(value),
        StandardOperator::Tail => values_operations::tail(alloc, value),
        StandardOperator::IsFiniteSet => is_finite_set(value),
        StandardOperator::Cardinality => values_operations::cardinality(value),
        StandardOperator::Append => unreachable!(),
        StandardOperator::SubSeq => unreachable!(),
        StandardOperator::Seq => unreachable!(),
    }
}

/// `Head(s)`.
fn head_answer(sequence: &Value) -> Result<Value, OpFault>
    ensures { GivesHead sequence.now result }
{
    match values_operations::head(sequence) {
        Ok(first) => Ok(first.copy()?),
        Err(fault) => Err(fault),
    }
}

/// `Append(s, v)`.
fn append_answer(alloc: Global, arguments: &[Value]) -> Result<Value, OpFault>
    requires { length arguments.now ≡ 2 }
    ensures { StandardAnswers Append arguments.now result }
{
    let sequence = argument(arguments, 0);
    let value = argument(arguments, 1);
    values_operations::append(alloc, sequence, value)
}

/// `SubSeq(s, m, n)`.
fn part_answer(alloc: Global, arguments: &[Value]) -> Result<Value, OpFault>
    requires { length arguments.now ≡ 3 }
    ensures { StandardAnswers SubSeq arguments.now result }
{
    let sequence = argument(arguments, 0);
    let from = argument(arguments, 1);
    let to = argument(arguments, 2);
    values_operations::subseq(alloc, sequence, from, to)
}

/// The argument of that index.
fn argument(arguments: &[Value], index: usize) -> &Value
    requires { index < length arguments.now }
    ensures { slice_get arguments.now index ≡ Some result.now }
{
    &arguments[index]
}

/// `a = b`.
fn equal(a: &Value, b: &Value) -> Result<Value, OpFault>
    ensures { IsWhether (a.now ≡ b.now) result }
{
    let same = a == b;
    Ok(Value::boolean(same))
}

/// `a # b`.
fn unequal(a: &Value, b: &Value) -> Result<Value, OpFault>
    ensures { IsWhether (¬ (a.now ≡ b.now)) result }
{
    let same = a == b;
    Ok(Value::boolean(!same))
}

/// `a > b`.
fn greater(a: &Value, b: &Value) -> Result<bool, OpFault>
    ensures { result ≡ is_greater a.now b.now }
{
    let (x, y) = integers(a, b)?;
    Ok(y < x)
}

/// `a >= b`.
fn at_least(a: &Value, b: &Value) -> Result<bool, OpFault>
    ensures { result ≡ is_at_least a.now b.now }
{
    let (x, y) = integers(a, b)?;
    Ok(y <= x)
}

/// The integers that the operands are.
fn integers(a: &Value, b: &Value) -> Result<(i64, i64), OpFault>
    ensures { result ≡ int_operands a.now b.now }
{
    let Some(x) = a.as_int() else {
        return Err(OpFault::Refused(EvalKind::NotInteger, 0));
    };
    let Some(y) = b.as_int() else {
        return Err(OpFault::Refused(EvalKind::NotInteger, 1));
    };
    Ok((x, y))
}

/// `IsFiniteSet(a)`.
fn is_finite_set(a: &Value) -> Result<Value, OpFault>
    ensures { IsFinite a.now result }
{
    match a.kind() {
        ValueKind::Set => Ok(Value::boolean(true)),
        _ => Err(OpFault::Refused(EvalKind::NotSet, 0)),
    }
}

/// The truth value that a test answers, as a value.
fn truth_of(answer: Result<bool, OpFault>) -> Result<Value, OpFault>
    ensures { result ≡ tested answer }
{
    match answer {
        Ok(holds) => Ok(Value::boolean(holds)),
        Err(fault) => Err(fault),
    }
}

/// The answer of an operation, its fault with the place of the operand that it names or of the term.
fn located(
    answer: Result<Value, OpFault>,
    at: Place,
    operands: &[Place],
) -> Result<Value, EvalFault>
    ensures { result ≡ placed_answer (place_in at operands.now) answer }
{
    match answer {
        Ok(value) => Ok(value),
        Err(OpFault::Refused(kind, operand)) => {
            let found = place(at, operands, operand);
            Err(EvalFault::Refused(kind, found))
        }
        Err(OpFault::NoMemory) => Err(EvalFault::NoMemory),
    }
}

/// The place of the operand of that number, or else that of the term.
fn place(at: Place, operands: &[Place], operand: u8) -> Place
    ensures { result ≡ place_in at operands.now operand }
{
    match operands.get(operand as usize) {
        Some(place) => *place,
        None => at,
    }
}
