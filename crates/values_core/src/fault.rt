ghost use Rattle.std.specs.Prelude.{◌≡◌};
ghost use Rattle.values_core.specs.FaultCodes.{eval_code};
ghost use Rattle.values_core.specs.Refusals.{refusal_of};

use crate::value::ValueFault;
use std::alloc::AllocError;
use std::fmt;
use thiserror::Error;

/// The number that the fault of a whole term has in place of an operand's.
pub const THE_TERM: u8 = 255;

/// What went wrong in an evaluation, in the order of this project's codes E1 to E17.
#[derive(Clone, Copy, Debug, Drop, PartialEq, Eq, Error)]
pub enum EvalKind {
    NotBoolean,
    NotInteger,
    NotSet,
    NotFunction,
    NotSequence,
    OutsideDomain,
    Overflow,
    BadDivisor,
    BadPower,
    NoChoice,
    NoCase,
    EmptySequence,
    BadRange,
    TooLarge,
    TooDeep,
    Nested,
    NotFinite,
}

/// The code and the name of the refusal.
impl fmt::Display for EvalKind {
    fn fmt<W: fmt::Write>(&self, f: &mut fmt::Formatter<W>) -> fmt::Result {
        f.write_str(self.code())
    }
}

impl EvalKind {
    /// The code and the name of the refusal.
    pub fn code(&self) -> &'static str
        ensures { result.now ≡ eval_code self.now }
    {
        match self {
            EvalKind::NotBoolean => "E1 NotBoolean",
            EvalKind::NotInteger => "E2 NotInteger",
            EvalKind::NotSet => "E3 NotSet",
            EvalKind::NotFunction => "E4 NotFunction",
            EvalKind::NotSequence => "E5 NotSequence",
            EvalKind::OutsideDomain => "E6 OutsideDomain",
            EvalKind::Overflow => "E7 Overflow",
            EvalKind::BadDivisor => "E8 BadDivisor",
            EvalKind::BadPower => "E9 BadPower",
            EvalKind::NoChoice => "E10 NoChoice",
            EvalKind::NoCase => "E11 NoCase",
            EvalKind::EmptySequence => "E12 EmptySequence",
            EvalKind::BadRange => "E13 BadRange",
            EvalKind::TooLarge => "E14 TooLarge",
            EvalKind::TooDeep => "E15 TooDeep",
            EvalKind::Nested => "E16 Nested",
            EvalKind::NotFinite => "E17 NotFinite",
        }
    }
}

/// Why an operation on values is refused.
///
/// With the kind comes the number of the operand that is at fault, from 0, or `THE_TERM` where the
/// fault is the whole term's.
#[derive(Clone, Copy, Debug, Drop, PartialEq, Eq, Error)]
pub enum OpFault {
    #[error("{0}")]
    Refused(EvalKind, u8),
    #[error("out of memory")]
    NoMemory,
}

impl From<AllocError> for OpFault {
    ghost use Rattle.values_core.specs.declared.fault.OpFault.TheVariants.{NoMemory};

    ghost from_gives = { λ _ e. e ≡ NoMemory };

    fn from(_e: AllocError) -> OpFault {
        OpFault::NoMemory
    }
}

impl From<ValueFault> for OpFault {
    ghost from_gives = { λ fault e. e ≡ refusal_of fault };

    fn from(fault: ValueFault) -> OpFault {
        match fault {
            ValueFault::KeyTwice => OpFault::Refused(EvalKind::NotFunction, THE_TERM),
            ValueFault::TooLarge => OpFault::Refused(EvalKind::TooLarge, THE_TERM),
            ValueFault::TooDeep => OpFault::Refused(EvalKind::TooDeep, THE_TERM),
            ValueFault::NoMemory => OpFault::NoMemory,
        }
    }
}
