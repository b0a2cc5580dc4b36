ghost use Rattle.std.specs.Prelude.{◌≡◌, ◌≤ℤ◌, if◌then◌else◌, negsuc, pos};
ghost use Rattle.values_core.specs.Data.{integer};
ghost use Rattle.values_core.specs.Integers.{
  Division,
  difference_of,
  int_operand,
  int_operands,
  is_at_most,
  is_less,
  negation_of,
  power as power_int,
  power_of,
  product_of,
  quotient_of,
  remainder_of,
  sum_of,
};
ghost use Rattle.values_operations.specs.Checked.{checked};

use crate::THE_TERM;
use values_core::{EvalKind, OpFault, Value};

/// `a + b`.
pub fn add(a: &Value, b: &Value) -> Result<Value, OpFault>
    ensures { result ≡ sum_of a.now b.now }
{
    let (x, y) = operands(a, b)?;
    or_overflow(x.checked_add(y))
}

/// `a - b`.
pub fn sub(a: &Value, b: &Value) -> Result<Value, OpFault>
    ensures { result ≡ difference_of a.now b.now }
{
    let (x, y) = operands(a, b)?;
    or_overflow(x.checked_sub(y))
}

/// `a * b`.
pub fn mul(a: &Value, b: &Value) -> Result<Value, OpFault>
    ensures { result ≡ product_of a.now b.now }
{
    let (x, y) = operands(a, b)?;
    or_overflow(x.checked_mul(y))
}

/// `-a`.
pub fn negate(a: &Value) -> Result<Value, OpFault>
    ensures { result ≡ negation_of a.now }
{
    let x = operand(a)?;
    or_overflow(x.checked_neg())
}

/// `a \div b`, rounded down.
pub fn div(a: &Value, b: &Value) -> Result<Value, OpFault>
    ensures { result ≡ quotient_of a.now b.now }
{
    let (x, y) = operands(a, b)?;
    if y <= 0 {
        return Err(OpFault::Refused(EvalKind::BadDivisor, THE_TERM));
    }
    Ok(Value::int(x.div_euclid(y)))
}

/// `a % b`, from 0 to below `b`.
pub fn modulo(a: &Value, b: &Value) -> Result<Value, OpFault>
    ensures { result ≡ remainder_of a.now b.now }
{
    let (x, y) = operands(a, b)?;
    if y <= 0 {
        return Err(OpFault::Refused(EvalKind::BadDivisor, THE_TERM));
    }
    Ok(Value::int(x.rem_euclid(y)))
}

/// `a ^ b`, where `b` must not be negative, and not 0 if `a` is 0.
pub fn power(a: &Value, b: &Value) -> Result<Value, OpFault>
    ensures { result ≡ power_of a.now b.now }
{
    let (x, y) = operands(a, b)?;
    if y < 0 || (x == 0 && y == 0) {
        return Err(OpFault::Refused(EvalKind::BadPower, THE_TERM));
    }
    match u32::try_from(y) {
        Ok(exponent) => or_overflow(x.checked_pow(exponent)),
        Err(_) => large_power(x, y),
    }
}

/// `x ^ y` where `y` is so large that only 0, 1 and -1 have a power that fits.
fn large_power(x: i64, y: i64) -> Result<Value, OpFault>
    requires { pos 4294967296 ≤ℤ y }
    ensures { result ≡ power_int x y }
{
    if x == 0 {
        return Ok(Value::int(0));
    }
    if x == 1 {
        return Ok(Value::int(1));
    }
    if x == -1 {
        return Ok(unit(y.unsigned_abs() % 2 == 0));
    }
    Err(OpFault::Refused(EvalKind::Overflow, THE_TERM))
}

/// 1 or -1.
fn unit(is_positive: bool) -> Value
    ensures { result ≡ (if is_positive then integer (pos 1) else integer (negsuc 0)) }
{
    if is_positive {
        Value::int(1)
    } else {
        Value::int(-1)
    }
}

/// `a < b`.
pub fn less(a: &Value, b: &Value) -> Result<bool, OpFault>
    ensures { result ≡ is_less a.now b.now }
{
    let (x, y) = operands(a, b)?;
    Ok(x < y)
}

/// `a <= b`.
pub fn at_most(a: &Value, b: &Value) -> Result<bool, OpFault>
    ensures { result ≡ is_at_most a.now b.now }
{
    let (x, y) = operands(a, b)?;
    Ok(x <= y)
}

/// What quotient and remainder are to each other.
pub fn division_law()
    ensures { Division }
{}

/// The integer that the operand is.
fn operand(a: &Value) -> Result<i64, OpFault>
    ensures { result ≡ int_operand a.now }
{
    match a.as_int() {
        Some(n) => Ok(n),
        None => Err(OpFault::Refused(EvalKind::NotInteger, 0)),
    }
}

/// The integers that the operands are.
pub(crate) fn operands(a: &Value, b: &Value) -> Result<(i64, i64), OpFault>
    ensures { result ≡ int_operands a.now b.now }
{
    let Some(x) = a.as_int() else {
        return Err(OpFault::Refused(EvalKind::NotInteger, 0));
    };
    let Some(y) = b.as_int() else {
        return Err(OpFault::Refused(EvalKind::NotInteger, 1));
    };
    Ok((x, y))
}

fn or_overflow(n: Option<i64>) -> Result<Value, OpFault>
    ensures { result ≡ checked n }
{
    match n {
        Some(n) => Ok(Value::int(n)),
        None => Err(OpFault::Refused(EvalKind::Overflow, THE_TERM)),
    }
}
