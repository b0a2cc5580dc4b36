ghost use Rattle.std.specs.Prelude.{◌≡◌, ◌<◌};
ghost use Rattle.logs_lines.specs.Files.{behind_blank, behind_init, behind_step, first_line};

use crate::clocks::ClockForm;
use logs_updates::Clock;

/// Where a line of a log stands, and what was before it.
#[derive(Drop)]
pub struct Position {
    /// The number of its log, from 1.
    pub file: u32,
    /// Whether there are several logs.
    pub many: bool,
    /// How many steps this log may have.
    pub room: u32,
    /// The number of the line, from 1.
    pub line: u32,
    /// Whether each line before it is blank.
    pub first: bool,
    /// How many lines before it are steps.
    pub steps: u32,
    /// The form of the first clock that was read, in this log or one before.
    pub form: ClockForm,
    /// The clock that the last of the steps before it has, or the number 0.
    pub clock: Clock,
}

impl Position {
    /// Where the first line of a file stands.
    pub(crate) fn first_line(file: u32, many: bool, room: u32, form: ClockForm) -> Position
        ensures { result ≡ first_line file many room form }
    {
        Position {
            file,
            many,
            room,
            line: 1,
            first: true,
            steps: 0,
            form,
            clock: Clock::Number(0),
        }
    }

    /// Where the line behind this one stands, if this one is blank.
    pub(crate) fn behind_blank(self) -> Position
        requires { self.line < 4294967295 }
        ensures { result ≡ behind_blank self }
    {
        Position {
            line: self.line + 1,
            ..self
        }
    }

    /// Where the line behind this one stands, if this one tells of the initial state.
    pub(crate) fn behind_init(self) -> Position
        requires { self.line < 4294967295 }
        ensures { result ≡ behind_init self }
    {
        Position {
            line: self.line + 1,
            first: false,
            ..self
        }
    }

    /// Where the line behind this one stands, if this one tells of a step at this clock.
    pub(crate) fn behind_step(self, form: ClockForm, clock: Clock) -> Position
        requires line { self.line < 4294967295 }
        requires steps { self.steps < 4294967295 }
        ensures { result ≡ behind_step self form clock }
    {
        Position {
            line: self.line + 1,
            first: false,
            steps: self.steps + 1,
            form,
            clock,
            ..self
        }
    }
}
