ghost use Rattle.std.specs.Prelude.{◌≡◌};
ghost use Rattle.logs_lines.specs.FaultCodes.{log_code};

use crate::clocks::ClockForm;
use base_core::Text;
use logs_shapes::Key;
use logs_updates::{Line, Sees};
use std::fmt;
use thiserror::Error;

/// Why a line is refused, in the order in which it is tested.
#[derive(Debug, Drop, Error)]
pub enum LogKind {
    LineTooLong,
    NotJson,
    NotObject,
    BadField(Key),
    InitNotFirst,
    TooManyLines,
    UnknownEvent,
    BadValue(Key),
    /// The number of arguments, and how many the operator has.
    WrongArgs(usize, usize),
    NoClock,
    ClockKind,
    /// The node, its number before, and in this clock.
    VectorBack(Text, u64, u64),
    /// The clock before, and this one.
    ClockBack(i64, i64),
    UnknownVariable,
    EventNotFixed,
}

/// The code and the name of the refusal.
impl fmt::Display for LogKind {
    fn fmt<W: fmt::Write>(&self, f: &mut fmt::Formatter<W>) -> fmt::Result {
        f.write_str(self.code())
    }
}

impl LogKind {
    /// The code and the name of the refusal.
    pub fn code(&self) -> &'static str
        ensures { result.now ≡ log_code self.now }
    {
        match self {
            LogKind::NotJson => "O1 NotJson",
            LogKind::NotObject => "O2 NotObject",
            LogKind::BadField(_) => "O3 BadField",
            LogKind::UnknownVariable => "O4 UnknownVariable",
            LogKind::UnknownEvent => "O5 UnknownEvent",
            LogKind::WrongArgs(_, _) => "O6 WrongArgs",
            LogKind::BadValue(_) => "O7 BadValue",
            LogKind::InitNotFirst => "O8 InitNotFirst",
            LogKind::NoClock => "O9 NoClock",
            LogKind::ClockBack(_, _) => "O10 ClockBack",
            LogKind::LineTooLong => "O11 LineTooLong",
            LogKind::EventNotFixed => "O12 EventNotFixed",
            LogKind::TooManyLines => "O13 TooManyLines",
            LogKind::VectorBack(_, _, _) => "O14 VectorBack",
            LogKind::ClockKind => "O15 ClockKind",
        }
    }
}

/// What comes of a line.
#[derive(Drop)]
pub enum Outcome {
    Blank,
    Init(Sees),
    /// A step, and the form of the clocks behind it.
    Step(Line, ClockForm),
    Refused(LogKind),
}
