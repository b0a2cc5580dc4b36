use std::fmt;

/// A place in a text of a specification.
///
/// `file` is a number, from 0, in the program's list of file names; `line` and `col` count from 1,
/// the column in characters.
#[derive(Clone, Copy, Debug, Drop, PartialEq, Eq, PartialOrd, Ord, Hash)]
pub struct Place {
    pub file: u32,
    pub line: u32,
    pub col: u32,
}

/// The line and the column, as `3:7`.
impl fmt::Display for Place {
    fn fmt<W: fmt::Write>(&self, f: &mut fmt::Formatter<W>) -> fmt::Result {
        write!(f, "{}:{}", self.line, self.col)
    }
}

/// A line of a log. `file` counts the logs from 1, `line` the lines of that log from 1.
#[derive(Clone, Copy, Debug, Drop, PartialEq, Eq, PartialOrd, Ord, Hash)]
pub struct LineAt {
    pub file: u32,
    pub line: u32,
}
